//! A rack in lent records: place i is record i.
ghost use Rattle.std.specs.Prelude.{◌≡◌, ◌≤◌, take, nat_le};
ghost use Rattle.racks.specs.Racks.{Added, Struck};
ghost use Rattle.racks.specs.RackLaws.{records_bounded};
ghost use Rattle.racks.specs.Records.{room, Stored, Closed};

use crate::place::index_of;
use crate::rack::{MOST_SHOTS, Rack};
use shots::{Entry, Refusal, Shot};

/// A rack in lent records. It has room for one shot in each, at most 512; no call writes a record
/// at or past the count that it leaves.
// the count stands beside the slice, and no `Vec` in their place, since the memory is lent and what lies
// past the count is promised too
#[derive(Drop)]
pub struct RecordRack<'a> {
    records: &'a mut [Shot],
    count: usize,
    ghost fits: { count ≤ room records.now },
}

impl<'a> RecordRack<'a> {
    /// An empty rack in these records, which may hold anything and stay as they are.
    pub fn open(records: &'a mut [Shot]) -> RecordRack<'a>
        ensures empty { result.count ≡ 0 }
        ensures memory { result.records.now ≡ records.old }
        ensures lender { result.records.ghost_name ≡ records.entry.ghost_name }
    {
        RecordRack { records, count: 0 }
    }
}

impl RecordRack<'_> {
    fn is_full(&self) -> bool
        ensures { result ≡ nat_le (room self.now.records.now) self.now.count }
    {
        self.count >= self.records.len().min(MOST_SHOTS)
    }
}

impl Rack for RecordRack<'_> {
    ghost held = { λ rack. take rack.count rack.records.now };

    ghost capacity = { λ rack. room rack.records.now };

    ghost bounded = { λ rack. records_bounded rack.count rack.records.now rack.fits };

    fn count(&self) -> usize {
        self.count
    }

    fn read(&self, place: i32) -> Result<Shot, Refusal> {
        let index = index_of(place, self.count)?;
        Ok(self.records[index])
    }

    fn add(&mut self, entry: Entry) -> Result<(), Refusal>
        ensures added { Added (room self.old.records.now) (take self.old.count self.old.records.now) entry result (take self.new.count self.new.records.now) }
        ensures room { room self.new.records.now ≡ room self.old.records.now }
        ensures memory { Stored self.old.count self.old.records.now entry result self.new.records.now }
        ensures lender { self.new.records.ghost_name ≡ self.old.records.ghost_name }
    {
        let shot = Shot::try_from(entry)?;
        if self.is_full() {
            return Err(Refusal::Full);
        }
        self.records[self.count] = shot;
        self.count += 1;
        Ok(())
    }

    fn strike(&mut self, place: i32) -> Result<(), Refusal>
        ensures struck { Struck (take self.old.count self.old.records.now) place result (take self.new.count self.new.records.now) }
        ensures room { room self.new.records.now ≡ room self.old.records.now }
        ensures memory { Closed self.old.count self.old.records.now place result self.new.records.now }
        ensures lender { self.new.records.ghost_name ≡ self.old.records.ghost_name }
    {
        let index = index_of(place, self.count)?;
        self.records.copy_within(index + 1..self.count, index);
        self.count -= 1;
        Ok(())
    }
}
