//! The two ways to turn a line about a shot: up, so that it rises more steeply, or down.
ghost use Rattle.std.specs.Prelude.{◌≡◌, ℕ, ℤ, pos, negsuc, ◌≤ℤ◌};
ghost use Rattle.shots.specs.declared.shot.Shot.{Shot};
ghost use Rattle.lines.specs.Lines.{AnyLine, any};
ghost use Rattle.lines.specs.Through.{run_of};
ghost use Rattle.lines.specs.declared.line.Line.{Line};
ghost use Rattle.theory.specs.Points.{Point};
ghost use Rattle.theory.specs.Rates.{rise_part, fall_part};
ghost use Rattle.fit.specs.Points.{point_at};
ghost use Rattle.fit.specs.Lifts.{lift_part, rise_lifts, fall_lifts};

use shots::Shot;

// A way to turn a line about a shot.
pub(crate) trait Way {
    // how far the line is lifted at the speed of the second shot when it is turned about the first
    ghost lift_of: { Shot → Shot → ℤ };

    // what the second point adds to the rate of the first
    ghost part: { AnyLine → Point → Point → ℤ };

    // How far the line is lifted at a shot's speed when it is turned about `z`.
    fn lift(z: Shot, shot: Shot) -> i32
        ensures value { result ≡ lift_of z shot }
        ensures small { (negsuc 3998 ≤ℤ result) × (result ≤ℤ pos 3999) };

    ghost lifts: { (l : Line) (z y : Shot) (q p : ℕ × ℕ) → part (any l) (point_at z q) (point_at y p) ≡ lift_part l y p (lift_of z y) };
}

// Up: a faster shot's end of the line goes up.
pub(crate) struct Rise;

impl Way for Rise {
    ghost lift_of = { run_of };

    ghost part = { rise_part };

    ghost lifts = { rise_lifts };

    fn lift(z: Shot, shot: Shot) -> i32 {
        i32::from(shot.speed) - i32::from(z.speed)
    }
}

// Down: a slower shot's end of the line goes up.
pub(crate) struct Fall;

impl Way for Fall {
    ghost lift_of = { λ z y. run_of y z };

    ghost part = { fall_part };

    ghost lifts = { fall_lifts };

    fn lift(z: Shot, shot: Shot) -> i32 {
        i32::from(z.speed) - i32::from(shot.speed)
    }
}
