//! The calls on a sheet, their answers, and what is written down of each.
use lines::{Line, PricedLine};
use shots::{Entry, Refusal};

/// A call on a sheet.
#[derive(Clone, Copy, PartialEq, Eq, Debug)]
pub enum Call {
    /// Adds the shot of these four numbers.
    Add(Entry),
    /// Takes the shot at this place out.
    Strike {
        /// The place, counted from 0.
        place: i32,
    },
    /// Lays, moves, proves or confirms the line.
    Pivot,
    /// Asks for the offset of the slope B/A.
    Mount {
        /// A.
        a: i32,
        /// B.
        b: i32,
    },
    /// Asks for the rows of the shots on the line in force.
    Slip {
        /// How many rows are handed in.
        rows: usize,
    },
    /// Asks for a pass with the line in force.
    Issue,
}

/// What a pivot did.
#[derive(Clone, Copy, PartialEq, Eq, Debug)]
pub enum Word {
    /// It laid the first line.
    Laid,
    /// It turned the line about the first place with a rate below 0.
    Moved,
    /// It found the line to be the cheapest, and put it in force.
    Proved,
    /// The line was in force already.
    Stands,
}

/// What a pivot answered.
#[derive(Clone, Copy, PartialEq, Eq, Debug)]
pub struct Pivoted {
    /// What it did.
    pub word: Word,
    /// The line, and T: its total over the held shots.
    pub priced: PricedLine,
}

/// What a call answered.
#[derive(Clone, Copy, PartialEq, Eq, Debug)]
pub enum Reply {
    /// An add or a strike was accepted.
    Done,
    /// A pivot answered with a line and its total.
    // word and line apart, and no `Pivoted`: the law goes by cases of the word
    Told(Word, PricedLine),
    /// A mount answered with an offset.
    Mounted(i32),
    /// A slip wrote so many rows.
    Slipped(usize),
    /// A pass with this line was issued.
    Issued(Line),
    /// The call was refused, and changed nothing.
    // a case, and no `Result` around the others: a moment has one answer, with one text
    Refused(Refusal),
}

/// A call with its answer, and the line for which issue, asked then, would answer a pass.
#[derive(Clone, Copy, PartialEq, Eq, Debug)]
pub struct Moment {
    /// What was called.
    pub call: Call,
    /// What it answered.
    pub reply: Reply,
    /// The line in force after it, if any.
    pub pass: Option<Line>,
}
