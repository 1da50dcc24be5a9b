//! Decimal numbers as a field writes them, each in one spelling.
ghost use Rattle.std.specs.Prelude.{◌^◌, ◌<◌, pos, neg_ℤ, IfSome};
ghost use Rattle.std.specs.Option.{SomeIff};
ghost use Rattle.fields.specs.Digits.{most_of};
ghost use Rattle.fields.specs.Numbers.{Natural, Numeral, Within, WritesBack, signed_of, value_of};

use crate::digits::Digits;

// The number that digits write, with no zero in front of others.
fn natural(ds: &[u8], digits: Digits) -> Option<u32>
    ensures value { SomeIff result (Natural (most_of digits) ds.now) (value_of ds.now) }
    ensures small { IfSome result (λ n. n < 10 ^ most_of digits) }
{
    if matches!(ds, [] | [b'0', _, ..]) || ds.len() > digits.most() {
        return None;
    }
    // not by `parse`, which also takes a plus and zeros in front
    let mut n = 0;
    for b in ds {
        n = n * 10 + char::from(*b).to_digit(10)?;
    }
    Some(n)
}

/// The number that a text writes, or `None` where the text is no number.
///
/// A number has at most so many digits, no zero in front of others, and may have a minus in front
/// if it is not 0: `0`, `-5` and `120` are numbers; `-0`, `+5`, `007` and an empty text are none.
pub fn number(text: &[u8], digits: Digits) -> Option<i32>
    ensures value { SomeIff result (Numeral (most_of digits) text.now) (signed_of text.now) }
    ensures within { IfSome result (Within (most_of digits)) }
    ensures writes_back { WritesBack text.now result }
{
    // at most eight digits, so the casts keep the number
    match text {
        [b'-', ds @ ..] => natural(ds, digits).filter(|n| *n != 0).map(|n| -(n as i32)),
        _ => natural(text, digits).map(|n| n as i32),
    }
}
