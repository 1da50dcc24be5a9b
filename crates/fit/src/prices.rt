//! The prices of a shot, asked of a rule.
ghost use Rattle.std.specs.Prelude.{◌≡◌, ◌≤◌, pos};

use crate::fit::Fit;
use shots::{PriceRule, Shot};

impl<R, P: PriceRule> Fit<'_, R, P> {
    // The late price and the early price of a shot's stuff.
    pub(crate) fn prices_of(&self, shot: Shot) -> (u8, u8)
        ensures value { result ≡ P.PriceRule.tariff self.now.rule.now (pos shot.stuff) }
        ensures low { (result.0 ≤ 20) × (result.1 ≤ 20) }
    {
        self.rule.prices(i32::from(shot.stuff))
    }
}
