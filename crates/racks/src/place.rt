//! Places as they are given in calls.
ghost use Rattle.racks.specs.Racks.{Index};

use shots::Refusal;

/// The place as an index below `count`; refused by `Place` where it is none.
pub(crate) fn index_of(place: i32, count: usize) -> Result<usize, Refusal>
    ensures { Index place count result }
{
    // by hand: through `usize::try_from` and `filter` a loop over a rack waited for the place at each shot
    if place < 0 {
        return Err(Refusal::Place);
    }
    let index = place as usize;
    if index < count {
        Ok(index)
    } else {
        Err(Refusal::Place)
    }
}
