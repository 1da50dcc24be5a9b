//! How far a shot lies off a line, and on which side.
ghost use Rattle.std.specs.Prelude.{◌≡◌, pos, negsuc, ◌≤ℤ◌, Decides};
ghost use Rattle.lines.specs.Lines.{miss_of, On};
ghost use Rattle.lines.specs.Sides.{side_of};

use crate::intercept::intercept;
use crate::line::Line;
use shots::Shot;

/// The side of a line that a shot lies on.
#[derive(Clone, Copy, PartialEq, Eq, Debug)]
pub enum Side {
    /// The shot's lead is greater than the line's: fired by the line, the valve opens late.
    Late,
    /// The shot's lead is smaller than the line's: fired by the line, the valve opens early.
    Early,
    /// The shot lies on the line.
    On,
}

impl Line {
    /// The miss A·h - B·s - C of a shot: the residual in tenths of a mm, times A.
    /// -191,992,000 to 191,992,000.
    pub fn miss(self, shot: Shot) -> i32
        ensures value { result ≡ miss_of self shot }
        ensures small { (negsuc 191991999 ≤ℤ result) × (result ≤ℤ pos 191992000) }
    {
        intercept(self.a, self.b, shot) - self.c
    }

    /// Whether a shot lies on the line.
    pub fn passes_through(self, shot: Shot) -> bool
        ensures { Decides result (On self shot) }
    {
        self.miss(shot) == 0
    }

    /// The side of a shot, by the sign of its miss.
    pub fn side(self, shot: Shot) -> Side
        ensures { result ≡ side_of (miss_of self shot) }
    {
        let miss = self.miss(shot);
        if miss > 0 {
            Side::Late
        } else if miss < 0 {
            Side::Early
        } else {
            Side::On
        }
    }
}
