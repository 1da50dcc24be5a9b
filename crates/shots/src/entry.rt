//! The four numbers of a shot as they come.
ghost use Rattle.std.specs.Prelude.{◌≡◌};
ghost use Rattle.shots.specs.Shots.{Reads};

use crate::shot::Shot;

/// The four numbers of a shot as they come, in range or not.
#[derive(Clone, Copy, PartialEq, Eq, Debug)]
pub struct Entry {
    /// Belt speed in mm per second.
    pub speed: i32,
    /// Belt travel by which the valve opens early, in tenths of a mm.
    pub lead: i32,
    /// How much the shot counts.
    pub weight: i32,
    /// The material code.
    pub stuff: i32,
}

impl Entry {
    /// The entry of these four numbers.
    pub fn new(speed: i32, lead: i32, weight: i32, stuff: i32) -> Entry
        ensures { result ≡ record { speed = speed; lead = lead; weight = weight; stuff = stuff } }
    {
        Entry {
            speed,
            lead,
            weight,
            stuff,
        }
    }
}

impl From<Shot> for Entry {
    ghost from_gives = { Reads };

    /// The entry that makes this shot.
    fn from(shot: Shot) -> Entry {
        Entry {
            speed: i32::from(shot.speed),
            lead: i32::from(shot.lead),
            weight: i32::from(shot.weight),
            stuff: i32::from(shot.stuff),
        }
    }
}
