//! The test: whether a line through two held speeds is the cheapest of all lines. It looks at every
//! shot on the line, and never only at the two that laid it.
ghost use Rattle.std.specs.Prelude.{◌≤◌, Decides};
ghost use Rattle.fit.specs.Testing.{Fails, Tested, Best};

use crate::fit::Fit;
use crate::ways::{Fall, Rise};
use lines::Line;
use racks::Rack;
use shots::{PriceRule, Shot};

impl<R: Rack, P: PriceRule> Fit<'_, R, P> {
    /// Tests a line over the held shots: the first place whose shot is on the line and has a rate below
    /// 0, and none where the line passes; a rate of 0 is allowed. A line with two held speeds on it
    /// passes exactly when no line is cheaper, of all lines with whole numbers of any size.
    pub fn failing_place(&self, line: Line) -> Option<usize>
        ensures outcome { Tested (P.PriceRule.tariff self.now.rule.now) line (R.Rack.held self.now.rack.now) result }
        ensures best { Best (P.PriceRule.tariff self.now.rule.now) line (R.Rack.held self.now.rack.now) result }
    {
        self.rack.iter().position(|z| self.fails(line, z))
    }

    // Whether a shot is on the line and has a rate below 0.
    fn fails(&self, line: Line, z: Shot) -> bool
        ensures { Decides result (Fails (P.PriceRule.tariff self.now.rule.now) line (R.Rack.held self.now.rack.now) z) }
    {
        line.passes_through(z)
            && (self.rate_about::<Rise>(line, z) < 0 || self.rate_about::<Fall>(line, z) < 0)
    }
}
