//! What a turn of a line about one of its points gives.
ghost use Rattle.theory.specs.Theorems.{TurnExists, TurnIsStrictlyCheaper, TurnIsTheLowestCheapest};

/// A line can be turned about a point wherever the list has a point of another speed.
pub fn turn_exists()
    ensures { TurnExists }
{}

/// The line turned about a point with a rate below 0 is strictly cheaper than the line before.
pub fn turn_is_strictly_cheaper()
    ensures { TurnIsStrictlyCheaper }
{}

/// The turned line runs through its point and one of another speed; of all lines through its point
/// none is cheaper, and each of lower slope is dearer.
pub fn turn_is_the_lowest_cheapest()
    ensures { TurnIsTheLowestCheapest }
{}
