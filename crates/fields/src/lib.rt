//! Fields of a text line, read and written.
//!
//! A line's fields are parted by tabs. A field is a word, a number or a blank, and it is that part
//! of the line: nothing is copied. Numbers are decimal, in one spelling each, so that what is
//! written reads back as the number that was written, and what was read is written the same again.
#![tactic(auto)]

pub mod digits;
pub mod fields;
pub mod numbers;
pub mod tokens;
pub mod written;

pub use self::digits::Digits;
pub use self::fields::{field, field_count};
pub use self::numbers::number;
pub use self::tokens::{Token, token_at, token_of};
pub use self::written::put_number;

#[cfg(test)]
mod tests;
