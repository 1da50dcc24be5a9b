//! Why a call refuses. A case's number and word never change; later cases are added at the end.
ghost use Rattle.std.specs.Prelude.{◌≡◌, Some};
ghost use Rattle.shots.specs.Refusals.{number_of, word_of};

use std::error::Error;
use std::fmt;

/// Why a call refuses what it was asked.
#[derive(Clone, Copy, PartialEq, Eq, Debug)]
pub enum Refusal {
    /// A speed outside 1 to 4000.
    Speed = 1,
    /// A shot's lead outside -8000 to 8000.
    Lead = 2,
    /// A weight outside 1 to 100.
    Weight = 3,
    /// A stuff outside 0 to 15.
    Stuff = 4,
    /// As many shots are held as there is capacity.
    Full = 5,
    /// No shot is held at that place.
    Place = 6,
    /// A first line was asked for, and the held shots have but one speed.
    OneSpeed = 7,
    /// No line is in force.
    Idle = 8,
    /// A fired lead outside -8000 to 8000.
    OffPlate = 9,
    /// Fewer rows were handed in than there are shots on the line.
    SlipShort = 10,
    /// A price outside 1 to 20.
    Price = 11,
    /// A slope's A outside 1 to 4000, or its B outside -16000 to 16000.
    Slope = 12,
    /// No shot is held.
    Empty = 13,
    /// A valve outside 0 to 15.
    Valve = 14,
    /// A text line with a field that is malformed, missing or surplus, or that is too long.
    Unreadable = 15,
    /// Fewer than 64 bytes were handed in for the answer.
    Paper = 16,
}

impl From<Refusal> for u8 {
    ghost from_gives = { λ refusal number. number ≡ number_of refusal };

    /// The number that stands for a refusal in every answer.
    fn from(refusal: Refusal) -> u8 {
        refusal as u8
    }
}

impl Refusal {
    /// The word that stands for this refusal in print.
    // a `&str` for a caller with no memory to print into; `Display` writes by it
    pub fn word(self) -> &'static str
        ensures { result.now ≡ word_of self }
    {
        match self {
            Refusal::Speed => "speed",
            Refusal::Lead => "lead",
            Refusal::Weight => "weight",
            Refusal::Stuff => "stuff",
            Refusal::Full => "full",
            Refusal::Place => "place",
            Refusal::OneSpeed => "one speed",
            Refusal::Idle => "idle",
            Refusal::OffPlate => "off plate",
            Refusal::SlipShort => "slip short",
            Refusal::Price => "price",
            Refusal::Slope => "slope",
            Refusal::Empty => "empty",
            Refusal::Valve => "valve",
            Refusal::Unreadable => "unreadable",
            Refusal::Paper => "paper",
        }
    }
}

/// The word of the refusal.
impl fmt::Display for Refusal {
    ghost output = { λ refusal. Some (word_of refusal) };

    fn fmt<W: fmt::Write>(&self, f: &mut fmt::Formatter<W>) -> fmt::Result {
        f.write_str(self.word())
    }
}

impl Error for Refusal {}
