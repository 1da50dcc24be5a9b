//! A layer that shows another rack with each lead negated.
ghost use Rattle.std.specs.Prelude.{◌≡◌, List, map};
ghost use Rattle.shots.specs.declared.shot.Shot.{Shot};
ghost use Rattle.racks.specs.Flips.{flipped};
ghost use Rattle.racks.specs.RackLaws.{mirror_bounded};

use crate::rack::Rack;
use shots::{Entry, Refusal, Shot};

/// A rack that shows and adds each lead negated, over any other rack; two of them show what is
/// below.
#[derive(Drop)]
pub struct Mirror<R> {
    rack: R,
}

impl<R: Rack> Mirror<R> {
    /// The mirror over this rack, as it stands.
    pub fn over(rack: R) -> Mirror<R>
        ensures wraps { result.rack ≡ rack }
        ensures twice { (xs : List Shot) → map flipped (map flipped xs) ≡ xs }
    {
        Mirror { rack }
    }

    /// The rack below, as it stands.
    pub fn into_inner(self) -> R
        ensures { result ≡ self.rack }
    {
        let Mirror { rack } = self;
        rack
    }
}

impl<R: Rack> Rack for Mirror<R> {
    ghost held = { λ mirror. map flipped (R.Rack.held mirror.rack) };

    ghost capacity = { λ mirror. R.Rack.capacity mirror.rack };

    ghost bounded = { λ mirror. mirror_bounded (R.Rack.held mirror.rack) (R.Rack.capacity mirror.rack) (R.Rack.bounded mirror.rack) };

    fn count(&self) -> usize {
        self.rack.count()
    }

    fn read(&self, place: i32) -> Result<Shot, Refusal> {
        self.rack.read(place).map(flip)
    }

    fn add(&mut self, entry: Entry) -> Result<(), Refusal> {
        // `i32::MIN`, which has no negation, stays; it is out of range either way, so that the rack
        // below refuses it in its turn
        let lead = entry.lead.wrapping_neg();
        self.rack.add(Entry { lead, ..entry })
    }

    fn strike(&mut self, place: i32) -> Result<(), Refusal> {
        self.rack.strike(place)
    }
}

// The shot with its lead negated.
fn flip(mut shot: Shot) -> Shot
    ensures { result ≡ flipped shot }
{
    shot.lead = -shot.lead;
    shot
}
