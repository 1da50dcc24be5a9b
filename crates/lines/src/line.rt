//! A line. Its ranges and its lowest terms are part of its type, so every line in hand has them.
ghost use Rattle.std.specs.Prelude.{pos, negsuc, ◌≤ℤ◌, unsigned_abs};
ghost use Rattle.lines.specs.Divisors.{Coprime};

/// A line A·h = B·s + C of leads h, in tenths of a mm, over speeds s, in mm per second.
/// No number above 1 divides both A and B.
#[derive(Clone, Copy, PartialEq, Eq, Debug)]
pub struct Line {
    /// A, 1 to 3999.
    pub a: i32,
    /// B, -16000 to 16000.
    pub b: i32,
    /// C, -96,000,000 to 96,000,000.
    pub c: i32,
    ghost ahead: { pos 1 ≤ℤ a },
    ghost fine: { a ≤ℤ pos 3999 },
    ghost fall: { negsuc 15999 ≤ℤ b },
    ghost rise: { b ≤ℤ pos 16000 },
    ghost low: { negsuc 95999999 ≤ℤ c },
    ghost high: { c ≤ℤ pos 96000000 },
    ghost lowest: { Coprime (unsigned_abs a) (unsigned_abs b) },
}
