//! The line of a given slope through a shot.
ghost use Rattle.lines.specs.About.{About};

use crate::intercept::intercept;
use crate::line::Line;
use crate::slope::Slope;
use shots::Shot;

impl Line {
    /// The line of this slope that the shot lies on; none where the slope's terms are out of the
    /// ranges of a line's A and B.
    pub fn about(shot: Shot, slope: Slope) -> Option<Line>
        ensures { About shot slope result }
    {
        if slope.run > 3999 || !(-16_000..=16_000).contains(&slope.rise) {
            return None;
        }
        Some(Line {
            a: slope.run,
            b: slope.rise,
            c: intercept(slope.run, slope.rise, shot),
        })
    }
}
