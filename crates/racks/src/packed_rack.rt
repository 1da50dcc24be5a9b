//! A rack in lent bytes, six to a shot: place i is the image in bytes 6i to 6i + 5.
ghost use Rattle.std.specs.Prelude.{◌≡◌, ◌*◌, ◌≤◌, take, nat_le};
ghost use Rattle.std.specs.List.{flat_map};
ghost use Rattle.shots.specs.Images.{image_of};
ghost use Rattle.racks.specs.Racks.{Added, Struck};
ghost use Rattle.racks.specs.RackLaws.{packed_bounded};
ghost use Rattle.racks.specs.Packs.{shot_of_bytes, shots_of_bytes, places, Stored, Closed};

use crate::place::index_of;
use crate::rack::{MOST_SHOTS, Rack};
use shots::{Entry, Refusal, Shot};

/// A rack in lent bytes, six to a shot. It has room for one shot in each six, at most 512; no call
/// writes a byte at or past the images that it leaves.
// not one type with the rack in records: what each byte holds is promised here, and what each record holds
// there, so that a trait over both kinds of memory would say each such clause once more
#[derive(Drop)]
pub struct PackedRack<'a> {
    bytes: &'a mut [u8],
    // beside the bytes, since they are lent and what lies past the count is promised too
    count: usize,
    ghost fits: { count ≤ places bytes.now },
    ghost whole: { flat_map image_of (shots_of_bytes count bytes.now) ≡ take (6 * count) bytes.now },
}

impl<'a> PackedRack<'a> {
    /// An empty rack in these bytes, which may hold anything and stay as they are.
    pub fn open(bytes: &'a mut [u8]) -> PackedRack<'a>
        ensures empty { result.count ≡ 0 }
        ensures memory { result.bytes.now ≡ bytes.old }
        ensures lender { result.bytes.ghost_name ≡ bytes.entry.ghost_name }
    {
        PackedRack { bytes, count: 0 }
    }
}

impl PackedRack<'_> {
    fn is_full(&self) -> bool
        ensures { result ≡ nat_le (places self.now.bytes.now) self.now.count }
    {
        self.count >= (self.bytes.len() / 6).min(MOST_SHOTS)
    }
}

impl Rack for PackedRack<'_> {
    ghost held = { λ rack. shots_of_bytes rack.count rack.bytes.now };

    ghost capacity = { λ rack. places rack.bytes.now };

    ghost bounded = { λ rack. packed_bounded rack.count rack.bytes.now rack.fits };

    fn count(&self) -> usize {
        self.count
    }

    fn read(&self, place: i32) -> Result<Shot, Refusal> {
        let index = index_of(place, self.count)?;
        Ok(shot_in(&self.bytes[6 * index..6 * index + 6]))
    }

    fn add(&mut self, entry: Entry) -> Result<(), Refusal>
        ensures added { Added (places self.old.bytes.now) (shots_of_bytes self.old.count self.old.bytes.now) entry result (shots_of_bytes self.new.count self.new.bytes.now) }
        ensures room { places self.new.bytes.now ≡ places self.old.bytes.now }
        ensures memory { Stored self.old.count self.old.bytes.now entry result self.new.bytes.now }
        ensures lender { self.new.bytes.ghost_name ≡ self.old.bytes.ghost_name }
    {
        let shot = Shot::try_from(entry)?;
        if self.is_full() {
            return Err(Refusal::Full);
        }
        let start = 6 * self.count;
        self.bytes[start..start + 6].copy_from_slice(&shot.image());
        self.count += 1;
        Ok(())
    }

    fn strike(&mut self, place: i32) -> Result<(), Refusal>
        ensures struck { Struck (shots_of_bytes self.old.count self.old.bytes.now) place result (shots_of_bytes self.new.count self.new.bytes.now) }
        ensures room { places self.new.bytes.now ≡ places self.old.bytes.now }
        ensures memory { Closed self.old.count self.old.bytes.now place result self.new.bytes.now }
        ensures lender { self.new.bytes.ghost_name ≡ self.old.bytes.ghost_name }
    {
        let index = index_of(place, self.count)?;
        self.bytes
            .copy_within(6 * (index + 1)..6 * self.count, 6 * index);
        self.count -= 1;
        Ok(())
    }
}

// The shot whose image these six bytes are.
fn shot_in(six: &[u8]) -> Shot
    requires { image_of (shot_of_bytes six.now) ≡ six.now }
    ensures { result ≡ shot_of_bytes six.now }
{
    match six {
        [a, b, c, d, e, f] => Shot::from_image([*a, *b, *c, *d, *e, *f]).unwrap(),
        // there are six, as is required
        _ => unreachable(),
    }
}
