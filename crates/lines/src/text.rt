//! Lines, priced lines and sides in print.
ghost use Rattle.std.specs.Prelude.{Some};
ghost use Rattle.lines.specs.Texts.{line_text, priced_text, side_text};

use crate::line::Line;
use crate::miss::Side;
use crate::priced::PricedLine;
use std::fmt;

/// A, B and C, parted by tabs.
impl fmt::Display for Line {
    ghost output = { λ line. Some (line_text line) };

    fn fmt<W: fmt::Write>(&self, f: &mut fmt::Formatter<W>) -> fmt::Result {
        let Line { a, b, c } = *self;
        write!(f, "{a}\t{b}\t{c}")
    }
}

/// The line, then a tab and the total.
impl fmt::Display for PricedLine {
    ghost output = { λ priced. Some (priced_text priced) };

    fn fmt<W: fmt::Write>(&self, f: &mut fmt::Formatter<W>) -> fmt::Result {
        let PricedLine { line, total } = *self;
        write!(f, "{line}\t{total}")
    }
}

/// The word of the side.
impl fmt::Display for Side {
    ghost output = { λ side. Some (side_text side) };

    fn fmt<W: fmt::Write>(&self, f: &mut fmt::Formatter<W>) -> fmt::Result {
        f.write_str(match *self {
            Side::Late => "late",
            Side::Early => "early",
            Side::On => "on",
        })
    }
}
