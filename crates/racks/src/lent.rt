//! A rack that is lent is a rack, so that a layer or a sheet may hold one by reference.
use crate::rack::Rack;
use shots::{Entry, Refusal, Shot};

impl<R: Rack> Rack for &mut R {
    ghost held = { λ rack. R.Rack.held rack.now };

    ghost capacity = { λ rack. R.Rack.capacity rack.now };

    ghost bounded = { λ rack. R.Rack.bounded rack.now };

    fn count(&self) -> usize {
        (**self).count()
    }

    fn read(&self, place: i32) -> Result<Shot, Refusal> {
        (**self).read(place)
    }

    fn add(&mut self, entry: Entry) -> Result<(), Refusal> {
        (**self).add(entry)
    }

    fn strike(&mut self, place: i32) -> Result<(), Refusal> {
        (**self).strike(place)
    }
}
