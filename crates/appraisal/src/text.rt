//! Input cut into text lines.
ghost use Rattle.std.specs.Prelude.{◌≡◌, ◌==◌, position};
ghost use Rattle.appraisal.specs.Text.{TextLine};

// The index of the first line feed, if there is one.
fn first_feed(input: &[u8]) -> Option<usize>
    ensures { result ≡ position (λ b. b == 10) input.now }
{
    // a function of its own: inlined, the check does not find that `end` is what `position` found
    input.iter().position(|b| *b == b'\n')
}

/// The first text line of some input, without its line feed, and the input after it; none where
/// the input is empty. The last text line may lack its line feed.
pub fn text_line(input: &[u8]) -> Option<(&[u8], &[u8])>
    ensures { TextLine input.now result }
{
    if input.is_empty() {
        return None;
    }
    match first_feed(input) {
        Some(end) => Some((&input[..end], &input[end + 1..])),
        None => Some((input, &[])),
    }
}
