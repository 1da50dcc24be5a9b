//! The even price rule.
ghost use Rattle.shots.specs.PriceLaws.{even_fair};
ghost use Rattle.shots.specs.Prices.{even};

use crate::prices::PriceRule;

/// Late and early cost the same, 1, whatever the stuff.
#[derive(Clone, Copy, PartialEq, Eq, Debug)]
pub struct EvenPrices;

impl PriceRule for EvenPrices {
    ghost tariff = { λ _. even };

    ghost fair = { λ _. even_fair };

    fn prices(&self, _stuff: i32) -> (u8, u8) {
        (1, 1)
    }
}
