//! What the program answers, and how it is written.
ghost use Rattle.std.specs.Prelude.{Some};
ghost use Rattle.appraisal.specs.Answers.{text_of, cheaper_text, Numbers};

use lines::{PricedLine, Side};
use shots::Refusal;
use slips::Row;
use std::fmt;

/// The answer to one text line, or to all of them.
#[derive(Clone, Copy, PartialEq, Eq, Debug)]
pub enum Answer {
    /// The text line of this number, counted from 1, was refused.
    Refused {
        refusal: Refusal,
        line: u64,
    },
    /// A shot took this place, lies on this side, and has this miss.
    Judged {
        place: usize,
        side: Side,
        miss: i32,
    },
    /// The total of all shots, the card's A, and their quotient cut to thousandths.
    Total {
        total: i64,
        a: i32,
        thousandths: u64,
    },
    /// No line is cheaper, of all lines there are.
    Cheapest,
    /// A line is cheaper: the first place that shows it, its two rates, and the line turned about it
    /// with its total.
    NotCheapest {
        at: Row,
        by: CheaperLine,
    },
    /// Fewer than two shots of different speeds are on the line, so the test does not apply.
    Untested,
}

/// A cheaper line and its total, as they are written in an answer.
// four numbers and no `PricedLine`: an answer may be made and written of any four, as of any place and rates
#[derive(Clone, Copy, PartialEq, Eq, Debug)]
pub struct CheaperLine {
    pub a: i32,
    pub b: i32,
    pub c: i32,
    pub total: i64,
}

impl From<PricedLine> for CheaperLine {
    ghost from_gives = { Numbers };

    fn from(priced: PricedLine) -> CheaperLine {
        let PricedLine { line, total } = priced;
        CheaperLine {
            a: line.a,
            b: line.b,
            c: line.c,
            total,
        }
    }
}

impl fmt::Display for CheaperLine {
    ghost output = { λ s. Some (cheaper_text s) };

    fn fmt<W: fmt::Write>(&self, f: &mut fmt::Formatter<W>) -> fmt::Result {
        let CheaperLine { a, b, c, total } = *self;
        write!(f, "{a}\t{b}\t{c}\t{total}")
    }
}

impl fmt::Display for Answer {
    ghost output = { λ answer. Some (text_of answer) };

    fn fmt<W: fmt::Write>(&self, f: &mut fmt::Formatter<W>) -> fmt::Result {
        match *self {
            Answer::Refused { refusal, line } => {
                let number = u8::from(refusal);
                write!(f, "no\t{number}\t{line}")
            }
            Answer::Judged { place, side, miss } => write!(f, "shot\t{place}\t{side}\t{miss}"),
            Answer::Total {
                total,
                a,
                thousandths,
            } => {
                let whole = thousandths / 1000;
                let rest = thousandths % 1000;
                write!(f, "total\t{total}\t{a}\t{whole}.{rest:03}")
            }
            Answer::Cheapest => f.write_str("cheapest"),
            Answer::NotCheapest { at, by } => write!(f, "not cheapest\t{at}\t{by}"),
            Answer::Untested => f.write_str("untested\tfewer than two speeds on the line"),
        }
    }
}
