//! A card and a shot, as a text line writes them.
ghost use Rattle.fields.specs.Digits.{most_of};
ghost use Rattle.appraisal.specs.Readings.{Writes, CardRead, EntryRead};
ghost use Rattle.std.specs.Prelude.{ℤ, MatchOption};

use fields::{Digits, Token, field_count, token_at};
use lines::Line;
use shots::Entry;

// The number that field `k` writes; none where there is no such field, or it is no number.
fn number_at(text: &[u8], k: usize, digits: Digits) -> Option<i32>
    ensures { MatchOption result ((z : ℤ) → Writes (most_of digits) text.now k z → ⊥) (λ z. Writes (most_of digits) text.now k z) }
{
    match token_at(text, k, digits)? {
        Token::Number { value, .. } => Some(value),
        _ => None,
    }
}

/// The card that a text line writes: A, B and C, parted by tabs, C of at most eight digits; none
/// where the text line is no such thing, or the three make no line.
pub fn read_card(text: &[u8]) -> Option<Line>
    ensures { CardRead text.now result }
{
    if field_count(text) != 3 {
        return None;
    }
    let a = number_at(text, 0, Digits::Six)?;
    let b = number_at(text, 1, Digits::Six)?;
    let c = number_at(text, 2, Digits::Eight)?;
    Line::new(a, b, c)
}

/// The speed, lead, weight and stuff that a text line writes, parted by tabs; none where it is no
/// four numbers.
pub fn read_entry(text: &[u8]) -> Option<Entry>
    ensures { EntryRead text.now result }
{
    if field_count(text) != 4 {
        return None;
    }
    let speed = number_at(text, 0, Digits::Six)?;
    let lead = number_at(text, 1, Digits::Six)?;
    let weight = number_at(text, 2, Digits::Six)?;
    let stuff = number_at(text, 3, Digits::Six)?;
    Some(Entry {
        speed,
        lead,
        weight,
        stuff,
    })
}
