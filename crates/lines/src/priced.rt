//! A line with its total, and which of two is cheaper.
ghost use Rattle.std.specs.Prelude.{Decides};
ghost use Rattle.lines.specs.Priced.{Cheaper};

use crate::line::Line;

/// A line and its total, the sum of its shots' shares.
#[derive(Clone, Copy, PartialEq, Eq, Debug)]
pub struct PricedLine {
    /// The line.
    pub line: Line,
    /// Its total, A times the price in tenths of a mm.
    pub total: i64,
}

impl PricedLine {
    // no `PartialOrd`: two lines of one price are different lines
    /// Whether this total over its A is less than the other's, for any two totals.
    pub fn is_cheaper_than(self, other: PricedLine) -> bool
        ensures { Decides result (Cheaper self other) }
    {
        // in 128 bits no product wraps
        i128::from(self.total) * i128::from(other.line.a)
            < i128::from(other.total) * i128::from(self.line.a)
    }
}
