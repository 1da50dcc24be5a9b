//! One text line of a shot after another, and what they cost together, at even prices.
ghost use Rattle.std.specs.Prelude.{◌≡◌, length, slice_index_or, IfOk, IfErr};
ghost use Rattle.appraisal.specs.Judging.{Judges, Entered, Declined, Closes};

use crate::answer::Answer;
use crate::reading::read_entry;
use fit::Fit;
use lines::Line;
use racks::Rack;
use shots::{EvenPrices, Refusal, Shot};

/// Adds the shot that a text line writes to the rack, and answers its place, side and miss against
/// the card's line. A text line that is no four numbers is refused by `Unreadable`, else as the
/// rack refuses; then the rack is as it was. `number` is the text line's own, for the answer.
pub fn judge<R: Rack>(rack: &mut R, line: Line, text: &[u8], number: u64) -> Answer
    ensures room { R.Rack.capacity rack.new ≡ R.Rack.capacity rack.old }
    ensures judged { Judges (R.Rack.capacity rack.old) (R.Rack.held rack.old) line text.now number result (R.Rack.held rack.new) }
{
    match add_shot(rack, text) {
        Ok((place, shot)) => Answer::Judged {
            place,
            side: line.side(shot),
            miss: line.miss(shot),
        },
        Err(refusal) => Answer::Refused {
            refusal,
            line: number,
        },
    }
}

// Adds the shot that a text line writes, and tells its place and the shot, or why it is refused.
fn add_shot<R: Rack>(rack: &mut R, text: &[u8]) -> Result<(usize, Shot), Refusal>
    ensures room { R.Rack.capacity rack.new ≡ R.Rack.capacity rack.old }
    ensures taken { IfOk result (λ p. Entered (R.Rack.capacity rack.old) (R.Rack.held rack.old) text.now (R.Rack.held rack.new) × ((p.0 ≡ length (R.Rack.held rack.old)) × (p.1 ≡ slice_index_or (R.Rack.held rack.new) (length (R.Rack.held rack.old)) p.1))) }
    ensures declined { IfErr result (λ refusal. (R.Rack.held rack.new ≡ R.Rack.held rack.old) × Declined (R.Rack.capacity rack.old) (R.Rack.held rack.old) text.now refusal) }
{
    let entry = read_entry(text).ok_or(Refusal::Unreadable)?;
    let place = rack.count();
    rack.add(entry)?;
    // a rack holds at most 512 shots, so the place fits
    let shot = rack.read(place as i32).unwrap();
    Ok((place, shot))
}

/// What the card's line costs over all shots of the rack: T, A, and T/A cut to thousandths.
pub fn close<R: Rack>(rack: &R, line: Line) -> Answer
    ensures { Closes (R.Rack.held rack.now) line result }
{
    let fit = Fit {
        rack,
        rule: &EvenPrices,
    };
    let total = fit.total(line);
    Answer::Total {
        total,
        a: line.a,
        thousandths: total as u64 * 1000 / line.a as u64,
    }
}
