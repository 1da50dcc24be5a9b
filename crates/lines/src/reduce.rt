//! Reducing a fraction to lowest terms.
ghost use Rattle.std.specs.Prelude.{◌≡◌, pos, ◌≤ℤ◌, MatchOption};
ghost use Rattle.lines.specs.Slopes.{Worth, Reduced, Each};

use crate::euclid::gcd;
use crate::slope::Slope;

/// The one slope of the value rise / run; none where the run is 0 or less.
pub fn reduced(rise: i32, run: i32) -> Option<Slope>
    ensures value { MatchOption result (run ≤ℤ pos 0) (λ s. Reduced rise run s) }
    ensures only { Each result (λ s. (t : Slope) → Worth t rise run → t ≡ s) }
{
    if run <= 0 {
        return None;
    }
    // the divisor is at most the run, so it fits
    let divisor = gcd(rise.unsigned_abs(), run as u32) as i32;
    Some(Slope {
        rise: rise / divisor,
        run: run / divisor,
    })
}
