//! What a key is: a value in a total order, in which only identical values are equal.
ghost use Rattle.lines.specs.SlopeLaws.{slope_only};
ghost use Rattle.balance.specs.Orders.{Only};
ghost use Rattle.balance.specs.OrderLaws.{whole_only};

use lines::Slope;

/// A kind of value in a total order, in which only identical values are equal.
pub trait Key: Copy + Ord {
    // Values that are equal in order are identical.
    ghost only: { Only Self.cmp };
}

impl Key for i32 {
    ghost only = { whole_only };
}

impl Key for Slope {
    ghost only = { slope_only };
}
