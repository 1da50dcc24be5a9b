//! Why there are only so many turns.
ghost use Rattle.theory.specs.Theorems.{CountIsBounded, TurnLowersTheCount};

/// A turn about a point with a rate below 0 leaves fewer pairs of points whose line is cheaper.
pub fn turn_lowers_the_count()
    ensures { TurnLowersTheCount }
{}

/// Of n points, fewer than n(n - 1)/2 pairs have a line cheaper than a line through two speeds.
pub fn count_is_bounded()
    ensures { CountIsBounded }
{}
