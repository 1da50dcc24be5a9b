//! What a rack is.
ghost use Rattle.std.specs.Prelude.{◌≡◌, ℕ, ◌≤◌, List, [], length, Decides};
ghost use Rattle.racks.specs.Racks.{Read, Added, Struck};
ghost use Rattle.shots.specs.declared.shot.Shot.{Shot};

use crate::iter::Iter;
use shots::{Entry, Refusal, Shot};

/// The most shots that any rack has room for.
pub const MOST_SHOTS: usize = 512;

/// A rack: shots in the order in which they were added, at places counted from 0.
///
/// Whatever answers as the four calls say that it writes itself is a rack. It holds at most its capacity, which is 512
/// or less and never changes. Every number may be passed; a call that refuses changes nothing.
pub trait Rack {
    // The shots, place by place.
    ghost held: { Self → List Shot };

    // How many shots there is room for.
    ghost capacity: { Self → ℕ };

    ghost bounded: { (rack : Self) → (length (held rack) ≤ capacity rack) × (capacity rack ≤ 512) };

    /// How many shots are held.
    fn count(&self) -> usize
        ensures { result ≡ length (held self.now) };

    /// The shot at a place; refused by `Place` where no shot is held.
    fn read(&self, place: i32) -> Result<Shot, Refusal>
        ensures { Read (held self.now) place result };

    // that the room stays is said of the rack before and after a call, which no type can say of itself
    /// Puts the shot of these four numbers at the end; refused by `Speed`, `Lead`, `Weight` or
    /// `Stuff`, by the first that is out of its range, then by `Full`.
    fn add(&mut self, entry: Entry) -> Result<(), Refusal>
        ensures added { Added (capacity self.old) (held self.old) entry result (held self.new) }
        ensures room { capacity self.new ≡ capacity self.old };

    /// Takes the shot at a place out, and the later shots move down one place; refused by `Place`
    /// where no shot is held.
    fn strike(&mut self, place: i32) -> Result<(), Refusal>
        ensures struck { Struck (held self.old) place result (held self.new) }
        ensures room { capacity self.new ≡ capacity self.old };

    /// Whether no shot is held.
    final fn is_empty(&self) -> bool
        ensures { Decides result (held self.now ≡ []) }
    {
        self.count() == 0
    }

    /// The shots in order of place, from place 0 on.
    final fn iter(&self) -> Iter<'_, Self>
        ensures shots { result ≡ held self.now }
        ensures few { length result ≤ 512 }
    {
        Iter::over(self)
    }
}
