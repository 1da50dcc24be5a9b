//! What one shot costs a line.
ghost use Rattle.std.specs.Prelude.{◌≡◌, ◌*◌, ◌≤◌, pos, ◌*ℤ◌, ◌≤ℤ◌};
ghost use Rattle.lines.specs.Costs.{share_of};

use crate::line::Line;
use crate::miss::Side;
use shots::Shot;

impl Line {
    /// The share of a shot in a line's total: its weight times the price of its side, times its
    /// miss without the sign. The prices are the late one and the early one.
    /// At least 0; at most 383,984,000,000 at prices up to 20.
    pub fn share(self, shot: Shot, prices: (u8, u8)) -> i64
        ensures value { result ≡ share_of self shot prices.0 prices.1 }
        ensures bound { (pos 0 ≤ℤ result) × ((prices.0 ≤ 20 → prices.1 ≤ 20 → result ≤ℤ pos 383984000000)) }
    {
        let (late, early) = prices;
        let miss = self.miss(shot);
        match self.side(shot) {
            Side::Late => charge(shot.weight, late, miss),
            Side::Early => charge(shot.weight, early, -miss),
            Side::On => 0,
        }
    }
}

/// Weight times price times miss.
pub fn charge(weight: u8, price: u8, miss: i32) -> i64
    ensures { result ≡ pos (weight * price) *ℤ miss }
{
    i64::from(weight) * i64::from(price) * i64::from(miss)
}
