//! The six-byte image of a shot: speed, lead, weight and stuff in 2, 2, 1 and 1 bytes, high byte
//! first, the lead in two's complement.
ghost use Rattle.std.specs.Prelude.{◌≡◌};
ghost use Rattle.shots.specs.Images.{image_of, Unpacked};
ghost use Rattle.shots.specs.declared.shot.Shot.{Shot};

use crate::entry::Entry;
use crate::shot::Shot;

impl Shot {
    /// The six bytes of this shot. No other shot has them.
    // a method, as `to_be_bytes` is, and no `From`: six bytes alone do not say that they are an image
    pub fn image(self) -> [u8; 6]
        ensures value { result ≡ image_of self }
        ensures only { (other : Shot) → image_of other ≡ result → other ≡ self }
    {
        let [a, b] = self.speed.to_be_bytes();
        let [c, d] = self.lead.to_be_bytes();
        [a, b, c, d, self.weight, self.stuff]
    }

    /// The shot whose image these bytes are; none where they are no shot's image.
    pub fn from_image(image: [u8; 6]) -> Option<Shot>
        ensures { Unpacked image result }
    {
        let [a, b, c, d, weight, stuff] = image;
        let entry = Entry {
            speed: i32::from(u16::from_be_bytes([a, b])),
            lead: i32::from(i16::from_be_bytes([c, d])),
            weight: i32::from(weight),
            stuff: i32::from(stuff),
        };
        Shot::try_from(entry).ok()
    }
}
