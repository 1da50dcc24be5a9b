//! Slopes in the order of their values.
ghost use Rattle.std.specs.Cmp.{partial_order_from_agreeing_total};
ghost use Rattle.std.specs.Ordering.{as_partial_cmp};
ghost use Rattle.lines.specs.SlopeOrder.{slope_cmp};
ghost use Rattle.lines.specs.SlopeLaws.{slope_total, slope_agrees, slope_ties};

use crate::slope::Slope;
use std::cmp::Ordering;

impl Ord for Slope {
    ghost cmp = { slope_cmp };

    ghost total = { slope_total };

    ghost matches_partial_cmp = { slope_agrees };

    ghost matches_eq = { slope_ties };

    fn cmp(&self, other: &Slope) -> Ordering {
        // in 64 bits no product wraps
        let left = i64::from(self.rise) * i64::from(other.run);
        let right = i64::from(other.rise) * i64::from(self.run);
        left.cmp(&right)
    }
}

impl PartialOrd for Slope {
    ghost partial_cmp = { as_partial_cmp slope_cmp };

    ghost laws = { partial_order_from_agreeing_total slope_cmp slope_total slope_agrees slope_ties };

    fn partial_cmp(&self, other: &Slope) -> Option<Ordering> {
        Some(self.cmp(other))
    }
}
