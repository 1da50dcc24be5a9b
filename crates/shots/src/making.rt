//! Making a shot from its four numbers as they come.
ghost use Rattle.shots.specs.Shots.{Judged};

use crate::entry::Entry;
use crate::refusal::Refusal;
use crate::shot::Shot;

impl TryFrom<Entry> for Shot {
    type Error = Refusal;

    ghost try_from_gives = { Judged };

    /// The shot of these four numbers; else the refusal of the first that is out of its range.
    fn try_from(entry: Entry) -> Result<Shot, Refusal> {
        let Entry {
            speed,
            lead,
            weight,
            stuff,
        } = entry;
        // compared by hand: through `contains` the check finds neither the refusals nor the ranges
        if speed < 1 || speed > 4000 {
            return Err(Refusal::Speed);
        }
        if lead < -8000 || lead > 8000 {
            return Err(Refusal::Lead);
        }
        if weight < 1 || weight > 100 {
            return Err(Refusal::Weight);
        }
        if stuff < 0 || stuff > 15 {
            return Err(Refusal::Stuff);
        }
        Ok(Shot {
            speed: speed as u16,
            lead: lead as i16,
            weight: weight as u8,
            stuff: stuff as u8,
        })
    }
}
