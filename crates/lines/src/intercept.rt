//! The C that puts a shot on a line whose A and B are given.
ghost use Rattle.std.specs.Prelude.{◌≡◌, pos, negsuc, ◌-ℤ◌, ◌*ℤ◌, ◌≤ℤ◌};

use shots::Shot;

/// A·h - B·s of a shot: the C of the line with this A and B that the shot lies on.
/// For an A and a B in the ranges of a line. -95,992,000 to 95,992,000.
pub(crate) fn intercept(a: i32, b: i32, shot: Shot) -> i32
    requires { (pos 1 ≤ℤ a) × ((a ≤ℤ pos 3999) × ((negsuc 15999 ≤ℤ b) × (b ≤ℤ pos 16000))) }
    ensures value { result ≡ a *ℤ shot.lead -ℤ b *ℤ pos shot.speed }
    ensures small { (negsuc 95991999 ≤ℤ result) × (result ≤ℤ pos 95992000) }
{
    // a `requires` and no type: A and B are fields of a line here, and there the terms of a slope just checked
    a * i32::from(shot.lead) - b * i32::from(shot.speed)
}
