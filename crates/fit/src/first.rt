//! The line to begin with.
ghost use Rattle.fit.specs.First.{FirstLine};

use lines::Line;
use racks::Rack;

/// The line through the shot at place 0 and the first shot of another speed; none where the held
/// shots have no two speeds.
pub fn first_line<R: Rack>(rack: &R) -> Option<Line>
    ensures { FirstLine (R.Rack.held rack.now) result }
{
    let mut shots = rack.iter();
    let first = shots.next()?;
    // none for a shot of the first one's speed
    shots.find_map(|shot| Line::through(first, shot))
}
