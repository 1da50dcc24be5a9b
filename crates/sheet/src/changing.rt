//! The stage after an accepted change: whether the line keeps its standing over the shots held now.
ghost use Rattle.std.specs.Prelude.{◌≡◌, ℕ, Option as Maybe};
ghost use Rattle.fit.specs.Testing.{Tested};
ghost use Rattle.law.specs.Turns.{after_test, AfterAdd, AfterStrike};

use crate::sheet::Sheet;
use fit::has_two_speeds;
use law::Stage;
use lines::Line;
use racks::Rack;
use shots::PriceRule;

impl<R: Rack, P: PriceRule> Sheet<R, P> {
    // The stage after an add: a line in force stays so where it passes the test, and else is tried.
    pub(crate) fn after_add(&self) -> Stage
        ensures { AfterAdd (P.PriceRule.tariff self.now.rule) (R.Rack.held self.now.rack) self.now.inner.stage result }
    {
        match self.inner.stage {
            Stage::InForce(line) => self.tested(line),
            stage => stage,
        }
    }

    // The stage after a strike: the same, but bare where no two speeds are left on the line.
    pub(crate) fn after_strike(&self) -> Stage
        ensures { AfterStrike (P.PriceRule.tariff self.now.rule) (R.Rack.held self.now.rack) self.now.inner.stage result }
    {
        match self.inner.stage {
            Stage::Trying(line) if has_two_speeds(&self.rack, line) => Stage::Trying(line),
            Stage::InForce(line) if has_two_speeds(&self.rack, line) => self.tested(line),
            // no line, or one that is left with one speed on it, or with none
            _ => Stage::Bare,
        }
    }

    // The stage of a line that was in force, by what the test says of it now.
    fn tested(&self, line: Line) -> Stage
        ensures { (o : Maybe ℕ) × Tested (P.PriceRule.tariff self.now.rule) line (R.Rack.held self.now.rack) o × (result ≡ after_test line o) }
    {
        match self.fit().failing_place(line) {
            None => Stage::InForce(line),
            Some(_) => Stage::Trying(line),
        }
    }
}
