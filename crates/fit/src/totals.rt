//! What a line costs over the shots of a rack.
ghost use Rattle.std.specs.Prelude.{◌≡◌, pos, ◌≤ℤ◌};
ghost use Rattle.lines.specs.Lines.{any};
ghost use Rattle.theory.specs.Points.{total as total_at};
ghost use Rattle.fit.specs.Points.{points};
ghost use Rattle.fit.specs.Totals.{total_of, Bounded, Even};

use crate::fit::Fit;
use lines::Line;
use racks::Rack;
use shots::PriceRule;

impl<R: Rack, P: PriceRule> Fit<'_, R, P> {
    /// T: the sum of the shares of all held shots in the line's price, A times that price in tenths of
    /// a mm. At least 0 and at most 196,599,808,000,000; at most 131,039,232,000,000 for a line with a
    /// held shot on it. With even prices, the sum of the weighted misses without their sign.
    pub fn total(&self, line: Line) -> i64
        ensures value { result ≡ total_of (P.PriceRule.tariff self.now.rule.now) line (R.Rack.held self.now.rack.now) }
        ensures points { result ≡ total_at (any line) (points (P.PriceRule.tariff self.now.rule.now) (R.Rack.held self.now.rack.now)) }
        ensures least { pos 0 ≤ℤ result }
        ensures size { result ≤ℤ pos 196599808000000 }
        ensures most { Bounded line (R.Rack.held self.now.rack.now) result }
        ensures even { Even (P.PriceRule.tariff self.now.rule.now) line (R.Rack.held self.now.rack.now) result }
    {
        // a loop: the library proves no bound for a `sum` of signed numbers
        let mut sum = 0;
        for shot in self.rack.iter() {
            sum += line.share(shot, self.prices_of(shot));
        }
        sum
    }
}
