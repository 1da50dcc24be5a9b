//! What one shot adds to a rate: what it costs at first to lift the line at the shot's speed.
ghost use Rattle.std.specs.Prelude.{◌≡◌, pos, negsuc, ◌≤ℤ◌};
ghost use Rattle.fit.specs.Lifts.{lift_part};

use lines::{Line, Side, charge};
use shots::Shot;

// What it costs at first to lift the line at a shot's speed; below 0 where the shot then costs less.
pub(crate) fn lift_price(line: Line, shot: Shot, prices: (u8, u8), lift: i32) -> i64
    requires { (negsuc 3998 ≤ℤ lift) × (lift ≤ℤ pos 3999) }
    ensures { result ≡ lift_part line shot prices lift }
{
    let (late, early) = prices;
    match line.side(shot) {
        Side::Late => charge(shot.weight, late, -lift),
        Side::Early => charge(shot.weight, early, lift),
        // a lifted line leaves the shot early, a lowered one late
        Side::On if lift > 0 => charge(shot.weight, early, lift),
        Side::On => charge(shot.weight, late, -lift),
    }
}
