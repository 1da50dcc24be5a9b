//! The two rates of a shot on a line: what it costs at first to turn the line about that shot, up
//! (rise) or down (fall). They are the one-sided directional derivatives of the price.
ghost use Rattle.std.specs.Prelude.{◌≡◌};
ghost use Rattle.fit.specs.Rates.{rate_of, rise_at, fall_at, OnAt, Rate};

use crate::fit::Fit;
use crate::lifts::lift_price;
use crate::ways::{Fall, Rise, Way};
use lines::Line;
use racks::Rack;
use shots::{PriceRule, Shot};

impl<R: Rack, P: PriceRule> Fit<'_, R, P> {
    /// The rise rate of the shot at a place; none where no shot is held there, or it is off the line.
    pub fn rise_rate(&self, line: Line, place: i32) -> Option<i64>
        ensures { Rate (rise_at (P.PriceRule.tariff self.now.rule.now) line (R.Rack.held self.now.rack.now)) line (R.Rack.held self.now.rack.now) place result }
    {
        self.rate_at::<Rise>(line, place)
    }

    /// The fall rate of the shot at a place; none where no shot is held there, or it is off the line.
    pub fn fall_rate(&self, line: Line, place: i32) -> Option<i64>
        ensures { Rate (fall_at (P.PriceRule.tariff self.now.rule.now) line (R.Rack.held self.now.rack.now)) line (R.Rack.held self.now.rack.now) place result }
    {
        self.rate_at::<Fall>(line, place)
    }

    // The rate of the shot at a place, one way; none where no shot is held there, or it is off the line.
    fn rate_at<W: Way>(&self, line: Line, place: i32) -> Option<i64>
        ensures { Rate (rate_of W.Way.part (P.PriceRule.tariff self.now.rule.now) line (R.Rack.held self.now.rack.now)) line (R.Rack.held self.now.rack.now) place result }
    {
        let z = self.on_line(line, place)?;
        Some(self.rate_about::<W>(line, z))
    }

    // The shot at a place, where one is held there and lies on the line.
    fn on_line(&self, line: Line, place: i32) -> Option<Shot>
        ensures { OnAt line (R.Rack.held self.now.rack.now) place result }
    {
        let shot = self.rack.read(place).ok()?;
        line.passes_through(shot).then_some(shot)
    }

    // The rate of a shot on the line, one way.
    pub(crate) fn rate_about<W: Way>(&self, line: Line, z: Shot) -> i64
        ensures { result ≡ rate_of W.Way.part (P.PriceRule.tariff self.now.rule.now) line (R.Rack.held self.now.rack.now) z }
    {
        // a loop: the library proves no bound for a `sum` of signed numbers
        let mut sum = 0;
        for shot in self.rack.iter() {
            sum += lift_price(line, shot, self.prices_of(shot), W::lift(z, shot));
        }
        sum
    }
}
