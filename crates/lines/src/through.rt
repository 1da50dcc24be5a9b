//! The line through two shots.
ghost use Rattle.std.specs.Prelude.{◌≡◌, ◌≤◌, MatchOption};
ghost use Rattle.lines.specs.Slopes.{Each};
ghost use Rattle.lines.specs.Lines.{On};
ghost use Rattle.lines.specs.Through.{LaidFrom, Through};

use crate::line::Line;
use crate::slope::Slope;
use shots::Shot;

impl Line {
    /// The one line that both shots lie on, the same for the shots in either order; none for two
    /// shots of one speed.
    pub fn through(p: Shot, q: Shot) -> Option<Line>
        ensures rule { Through p q result }
        ensures through_both { Each result (λ l. On l p × On l q) }
        ensures only { Each result (λ l. (m : Line) → On m p → On m q → m ≡ l) }
        ensures swapped { Through q p result }
    {
        if p.speed < q.speed {
            laid_from(p, q)
        } else {
            laid_from(q, p)
        }
    }
}

/// The line from the slower shot to the faster one; none where the first is not the slower.
fn laid_from(slow: Shot, fast: Shot) -> Option<Line>
    ensures { MatchOption result (fast.speed ≤ slow.speed) (λ l. LaidFrom slow fast l) }
{
    // the slope of two shots fits a line
    Line::about(slow, Slope::between(slow, fast)?)
}
