//! A test shot. Its ranges are part of its type, so a shot in hand is always in range.
ghost use Rattle.std.specs.Prelude.{◌≤◌, pos, negsuc, ◌≤ℤ◌};

/// A test shot: at this speed, this lead would have hit.
#[derive(Clone, Copy, PartialEq, Eq, Debug)]
pub struct Shot {
    /// Belt speed in mm per second, 1 to 4000.
    pub speed: u16,
    /// Belt travel by which the valve opens early, in tenths of a mm, -8000 to 8000.
    pub lead: i16,
    /// How much the shot counts, 1 to 100.
    pub weight: u8,
    /// The material code, 0 to 15.
    pub stuff: u8,
    ghost moving: { 1 ≤ speed },
    ghost slow: { speed ≤ 4000 },
    ghost low: { negsuc 7999 ≤ℤ lead },
    ghost high: { lead ≤ℤ pos 8000 },
    ghost counted: { 1 ≤ weight },
    ghost light: { weight ≤ 100 },
    ghost coded: { stuff ≤ 15 },
}
