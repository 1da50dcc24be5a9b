//! Numbers written into a line.
ghost use Rattle.std.specs.Fmt.{signed_decimal};
ghost use Rattle.fields.specs.Written.{Put, ReadsBack};

use itoa::Buffer;

// Writes a text from a place on where it fits, and answers the place after it.
fn put(out: &mut [u8], at: usize, text: &[u8]) -> Option<usize>
    ensures { Put out.old at text.now out.new result }
{
    let end = at.checked_add(text.len())?;
    if end > out.len() {
        return None;
    }
    // not by `get_mut`, after which no contract says where in `out` the part lies
    out[at..end].copy_from_slice(text);
    Some(end)
}

/// Writes a number from place `at` on, and answers the place after it.
///
/// Where the number does not fit between `at` and the end, answers `None` and writes nothing.
/// What is written reads back as the number, if it has no more digits than the reader takes.
pub fn put_number(out: &mut [u8], at: usize, z: i64) -> Option<usize>
    ensures put { Put out.old at (signed_decimal z) out.new result }
    ensures reads_back { ReadsBack z }
{
    put(out, at, Buffer::new().format(z).as_bytes())
}
