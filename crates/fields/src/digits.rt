//! How many digits a number may have.
ghost use Rattle.std.specs.Prelude.{◌≡◌};
ghost use Rattle.fields.specs.Digits.{most_of};

/// The most digits that a number may have.
#[derive(Clone, Copy, PartialEq, Eq, Debug)]
pub enum Digits {
    /// At most six digits: -999999 to 999999.
    Six = 6,
    /// At most eight digits: -99999999 to 99999999.
    Eight = 8,
}

impl Digits {
    /// That many, as a number: 6 or 8.
    pub fn most(self) -> usize
        ensures { result ≡ most_of self }
    {
        self as usize
    }
}
