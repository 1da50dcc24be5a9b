//! The stuff price rule: a table that is set one stuff at a time.
ghost use Rattle.std.specs.Prelude.{◌≡◌, replicate};
ghost use Rattle.shots.specs.PriceLaws.{listed_fair};
ghost use Rattle.shots.specs.Prices.{listed, SetPrice};

use crate::prices::PriceRule;
use crate::refusal::Refusal;
use crate::stuff_prices::StuffPrices;

impl StuffPrices {
    /// Late and early cost 1 for every stuff.
    pub fn new() -> StuffPrices
        ensures { result.table ≡ replicate 16 (1, 1) }
    {
        StuffPrices {
            table: [(1, 1); 16],
        }
    }

    /// Sets the prices of one stuff; refused by `Stuff`, then by `Price`, and then nothing changes.
    pub fn set(&mut self, stuff: i32, late: i32, early: i32) -> Result<(), Refusal>
        ensures { SetPrice self.old.table stuff late early result self.new.table }
    {
        // compared by hand: through `contains` the check finds neither the refusals nor the ranges
        if stuff < 0 || stuff > 15 {
            return Err(Refusal::Stuff);
        }
        if late < 1 || late > 20 || early < 1 || early > 20 {
            return Err(Refusal::Price);
        }
        self.table[stuff as usize] = (late as u8, early as u8);
        Ok(())
    }
}

impl PriceRule for StuffPrices {
    ghost tariff = { λ rule. listed rule.table };

    ghost fair = { λ rule. listed_fair rule.table rule.late rule.early };

    fn prices(&self, stuff: i32) -> (u8, u8) {
        if stuff < 0 || stuff > 15 {
            return (1, 1);
        }
        self.table[stuff as usize]
    }
}
