//! The calls of a fresh life of the held shots: each is added, then the line is pivoted to its end.
ghost use Rattle.appraisal.specs.Planning.{Planned};

use law::Call;
use racks::Rack;
use shots::Entry;

/// Writes an add of each held shot in order of place, then one pivot more than there are shots, from
/// the front of the calls, and says how many there are; the calls beyond stay as they were. None, with
/// nothing written, where there is too little room.
pub fn plan<R: Rack>(rack: &R, calls: &mut [Call]) -> Option<usize>
    ensures { Planned (R.Rack.held rack.now) calls.old result calls.new }
{
    let shots = rack.count();
    // a rack holds at most 512 shots, so this is at most 1025
    let count = 2 * shots + 1;
    if count > calls.len() {
        return None;
    }
    // by index, since after a `zip` over `iter_mut` no contract says what became of the calls
    for (i, shot) in rack.iter().enumerate() {
        calls[i] = Call::Add(Entry::from(shot));
    }
    calls[shots..count].fill(Call::Pivot);
    Some(count)
}
