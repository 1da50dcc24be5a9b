//! Going over the shots of a rack, from place 0 on.
ghost use Rattle.std.specs.Prelude.{◌≡◌};
ghost use Rattle.std.specs.Iterator.{YieldsFirst, item_count};

use crate::rack::Rack;
use shots::Shot;
use std::marker::Model;

/// The shots of a rack in order of place, seen as the list of those that are left.
#[derive(Drop)]
pub struct Iter<'a, R: Rack> {
    rack: &'a R,
    place: usize,
}

impl<'a, R: Rack> Model for Iter<'a, R> {
    ghost use Rattle.std.specs.Prelude.{◌≤◌, List, drop};
    ghost use Rattle.shots.specs.declared.shot.Shot.{Shot};

    ghost Value = { List Shot };

    ghost view = { λ it. drop it.place (R.Rack.held it.rack.now) };

    // no rack holds more, so a place fits an `i32`
    ghost invariant = { λ it. it.place ≤ 512 };
}

impl<'a, R: Rack> Iter<'a, R> {
    // The shots of this rack, from place 0 on.
    pub(crate) fn over(rack: &'a R) -> Iter<'a, R>
        ensures { result ≡ R.Rack.held rack.now }
    {
        Iter { rack, place: 0 }
    }
}

impl<R: Rack> Iterator for Iter<'_, R> {
    type Item = Shot;

    ghost next_gives = { YieldsFirst (λ left. left) };

    ghost remaining = { item_count (λ left. left) };

    fn next(&mut self) -> Option<Shot> {
        // cast: a rack is read at a place as a fitter types it
        let shot = self.rack.read(self.place as i32).ok()?;
        self.place += 1;
        Some(shot)
    }
}
