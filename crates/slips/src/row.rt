//! A row of a slip, and how it is written.
ghost use Rattle.std.specs.Prelude.{Some};
ghost use Rattle.slips.specs.Texts.{row_text};

use std::fmt;

/// One row of a slip: a shot on the line, by its place, and its two rates. All are 0 by default.
#[derive(Clone, Copy, PartialEq, Eq, Debug, Default)]
pub struct Row {
    /// The shot's place in the rack, counted from 0.
    pub place: usize,
    /// Its rise rate: what it costs at first to turn the line up about the shot.
    pub rise: i64,
    /// Its fall rate: what it costs at first to turn the line down about the shot.
    pub fall: i64,
}

/// The place, its rise rate and its fall rate, parted by tabs.
impl fmt::Display for Row {
    ghost output = { λ row. Some (row_text row) };

    fn fmt<W: fmt::Write>(&self, f: &mut fmt::Formatter<W>) -> fmt::Result {
        let Row { place, rise, fall } = *self;
        write!(f, "{place}\t{rise}\t{fall}")
    }
}
