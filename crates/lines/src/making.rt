//! Making a line from three numbers as they come.
ghost use Rattle.lines.specs.Lines.{Made};

use crate::euclid::gcd;
use crate::line::Line;

impl Line {
    /// The line of these three numbers; none where one is out of its range, or a number above 1
    /// divides both A and B.
    pub fn new(a: i32, b: i32, c: i32) -> Option<Line>
        ensures { Made a b c result }
    {
        if !(1..=3999).contains(&a) {
            return None;
        }
        if !(-16_000..=16_000).contains(&b) {
            return None;
        }
        if !(-96_000_000..=96_000_000).contains(&c) {
            return None;
        }
        if gcd(b.unsigned_abs(), a as u32) != 1 {
            return None;
        }
        Some(Line { a, b, c })
    }
}
