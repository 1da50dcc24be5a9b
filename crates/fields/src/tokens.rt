//! What a field is: a word, a number or a blank.
ghost use Rattle.std.specs.Prelude.{◌≡◌, IfSome};
ghost use Rattle.fields.specs.Fields.{PartOf};
ghost use Rattle.fields.specs.Tokens.{TokenAt, TokenOf, bytes_of};

use crate::digits::Digits;
use crate::fields::field;
use crate::numbers::number;

/// A field, by what it is. Each case holds the field's own bytes, which are part of the line.
#[derive(Clone, Copy, PartialEq, Eq, Debug)]
pub enum Token<'a> {
    /// Bytes that write no number.
    Word(&'a [u8]),
    /// Bytes that write a number, and the number.
    Number { text: &'a [u8], value: i32 },
    /// No bytes.
    Blank(&'a [u8]),
}

/// What a text is, as a field: a blank if it is empty, a number if it writes one, and else a word.
///
/// The token holds the very slice that was passed.
pub fn token_of<'a>(text: &'a [u8], digits: Digits) -> Token<'a>
    ensures token { TokenOf digits text.now result }
    ensures lent { bytes_of result ≡ text.entry }
{
    if text.is_empty() {
        return Token::Blank(text);
    }
    match number(text, digits) {
        Some(value) => Token::Number { text, value },
        None => Token::Word(text),
    }
}

/// What field `k` of a line is, counted from 0, or `None` where the line has no such field.
///
/// The token's bytes lie within the line.
pub fn token_at<'a>(line: &'a [u8], k: usize, digits: Digits) -> Option<Token<'a>>
    ensures token { TokenAt digits line.now k result }
    ensures lent { IfSome result (λ token. PartOf line.entry (bytes_of token)) }
{
    field(line, k).map(|text| token_of(text, digits))
}
