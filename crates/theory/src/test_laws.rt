//! What the test is worth.
ghost use Rattle.theory.specs.Theorems.{TestPassesExactlyWhenCheapest};

/// A line through two speeds passes the test exactly when no line is cheaper.
pub fn test_passes_exactly_when_cheapest()
    ensures { TestPassesExactlyWhenCheapest }
{}
