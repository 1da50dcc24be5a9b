//! Whether a line runs through two held shots of different speeds, so that the test applies to it.
ghost use Rattle.std.specs.Prelude.{◌≡◌, Decides, MatchOption, ◌≢◌};
ghost use Rattle.lines.specs.Lines.{On};
ghost use Rattle.fit.specs.Spanning.{OnOther, NoneOn, SpeedOn, TwoSpeeds, SpansAll};

use lines::Line;
use racks::Rack;
use shots::Shot;

/// Whether two held shots of different speeds are on the line.
pub fn has_two_speeds<R: Rack>(rack: &R, line: Line) -> bool
    ensures shots { Decides result (TwoSpeeds line (R.Rack.held rack.now)) }
    ensures points { SpansAll line (R.Rack.held rack.now) result }
{
    speed_on(rack, line).is_some_and(|speed| is_other_on(rack, line, speed))
}

// The speed of the first shot on the line.
fn speed_on<R: Rack>(rack: &R, line: Line) -> Option<u16>
    ensures { MatchOption result (NoneOn line (R.Rack.held rack.now)) (λ v. SpeedOn line (R.Rack.held rack.now) v) }
{
    let shot = rack.iter().find(|shot| line.passes_through(*shot))?;
    Some(shot.speed)
}

// Whether a shot of another speed is on the line.
fn is_other_on<R: Rack>(rack: &R, line: Line, speed: u16) -> bool
    ensures { Decides result (OnOther line (R.Rack.held rack.now) speed) }
{
    rack.iter().any(|shot| is_on_at_other(line, shot, speed))
}

// Whether a shot is on the line and has another speed.
fn is_on_at_other(line: Line, shot: Shot, speed: u16) -> bool
    ensures { Decides result (On line shot × (shot.speed ≢ speed)) }
{
    line.passes_through(shot) && shot.speed != speed
}
