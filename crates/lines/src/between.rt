//! The slope between two shots.
ghost use Rattle.std.specs.Prelude.{◌≤◌, MatchOption};
ghost use Rattle.lines.specs.About.{Fits};
ghost use Rattle.lines.specs.Slopes.{Reduced, Each};
ghost use Rattle.lines.specs.Through.{run_of, rise_of};

use crate::reduce::reduced;
use crate::slope::Slope;
use shots::Shot;

impl Slope {
    /// The slope from a slower shot to a faster one: the difference of their leads over that of their
    /// speeds. None where the first is not the slower.
    pub fn between(slow: Shot, fast: Shot) -> Option<Slope>
        ensures slope { MatchOption result (fast.speed ≤ slow.speed) (λ s. Reduced (rise_of slow fast) (run_of slow fast) s) }
        ensures fits { Each result Fits }
    {
        let rise = i32::from(fast.lead) - i32::from(slow.lead);
        let run = i32::from(fast.speed) - i32::from(slow.speed);
        reduced(rise, run)
    }
}
