//! What the rates of a point are.
ghost use Rattle.theory.specs.Theorems.{RatesAddUp, RatesAreOneSidedSlopes};

/// Turning a line about one of its points costs at least the point's rate on that side, and exactly
/// that up to the next key.
pub fn rates_are_one_sided_slopes()
    ensures { RatesAreOneSidedSlopes }
{}

/// The rise and the fall rate of a point add up to the weights of the points on the line, times how
/// far their speeds are from its own.
pub fn rates_add_up()
    ensures { RatesAddUp }
{}
