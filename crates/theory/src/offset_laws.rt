//! Where a line of known slope is best laid.
ghost use Rattle.theory.specs.Theorems.{BalancedOffsetIsLowestCheapest};

/// Of all lines of one slope, over all rational offsets, none is cheaper than the line at the
/// balanced offset, and each of lower offset is dearer.
pub fn balanced_offset_is_lowest_cheapest()
    ensures { BalancedOffsetIsLowestCheapest }
{}
