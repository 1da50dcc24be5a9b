//! A slope: a fraction in lowest terms, whose denominator is above 0. Both are part of its type.
ghost use Rattle.std.specs.Prelude.{◌≡◌, pos, ◌<ℤ◌, unsigned_abs};
ghost use Rattle.lines.specs.Divisors.{Coprime};

/// A fraction rise / run in lowest terms.
#[derive(Clone, Copy, PartialEq, Eq, Debug)]
pub struct Slope {
    /// The numerator, of either sign.
    pub rise: i32,
    /// The denominator, at least 1.
    pub run: i32,
    ghost ahead: { pos 0 <ℤ run },
    ghost lowest: { Coprime (unsigned_abs rise) (unsigned_abs run) },
}

/// The level slope, 0 / 1.
impl Default for Slope {
    ghost is_default = { λ slope. (slope.rise ≡ pos 0) × (slope.run ≡ pos 1) };

    fn default() -> Slope {
        Slope { rise: 0, run: 1 }
    }
}
