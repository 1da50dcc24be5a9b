//! Answers in print: a word, then a number or values, parted by tabs.
ghost use Rattle.std.specs.Prelude.{◌≡◌, Some};
ghost use Rattle.law.specs.Words.{word_of, reply_word, reply_number, reply_text};

use crate::kinds::{Reply, Word};
use std::fmt;

impl Word {
    /// The word in print.
    // a `&str` for a caller with no memory to print into; the word of a reply hands it on
    pub fn text(self) -> &'static str
        ensures { result.now ≡ word_of self }
    {
        match self {
            Word::Laid => "laid",
            Word::Moved => "moved",
            Word::Proved => "proved",
            Word::Stands => "stands",
        }
    }
}

impl Reply {
    /// The answer's word.
    // a `&str` for a caller with no memory to print into; `Display` writes by it
    pub fn word(self) -> &'static str
        ensures { result.now ≡ reply_word self }
    {
        match self {
            Reply::Done => "ok",
            Reply::Told(word, _) => word.text(),
            Reply::Mounted(_) => "mount",
            Reply::Slipped(_) => "slip",
            Reply::Issued(_) => "pass",
            Reply::Refused(_) => "no",
        }
    }

    /// The answer's number, where it is a refusal.
    // an `Option` for a caller with no memory to print into
    pub fn number(self) -> Option<u8>
        ensures { result ≡ reply_number self }
    {
        match self {
            Reply::Refused(refusal) => Some(u8::from(refusal)),
            _ => None,
        }
    }
}

impl fmt::Display for Reply {
    ghost output = { λ reply. Some (reply_text reply) };

    fn fmt<W: fmt::Write>(&self, f: &mut fmt::Formatter<W>) -> fmt::Result {
        let word = self.word();
        match *self {
            Reply::Done => f.write_str(word),
            Reply::Told(_, priced) => write!(f, "{word}\t{priced}"),
            Reply::Mounted(offset) => write!(f, "{word}\t{offset}"),
            Reply::Slipped(rows) => write!(f, "{word}\t{rows}"),
            Reply::Issued(line) => write!(f, "{word}\t{line}"),
            Reply::Refused(refusal) => {
                let number = u8::from(refusal);
                write!(f, "{word}\t{number}")
            }
        }
    }
}
