//! The balance point of whole keys: the cheapest level.
ghost use Rattle.std.specs.Prelude.{◌≡◌, ℤ, int_le};
ghost use Rattle.lines.specs.Slopes.{Each};
ghost use Rattle.balance.specs.Balances.{Answer, LowestKey, Even, Median};
ghost use Rattle.balance.specs.Levels.{Cheapest};

use crate::balance::Balance;
use crate::point::balance_point;
use crate::pull::Pull;

/// The balance point of whole keys. It is the least of the cheapest levels x, whole or not: those with
/// the least sum of under·(key - x) over the keys above x and over·(x - key) over the keys below.
pub fn whole_balance_point(pulls: &[Pull<i32>]) -> Option<Balance<i32>>
    ensures point { Answer int_le pulls.now result }
    ensures only { Each result (λ b. (t : ℤ) → LowestKey int_le pulls.now t → t ≡ b.lowest) }
    ensures median { Each result (λ b. Even pulls.now → Median int_le pulls.now b.lowest) }
    ensures cheapest { Each result (λ b. Cheapest pulls.now b.lowest) }
{
    // a function of its own: at whole keys it promises one thing more, that the level is the cheapest
    balance_point(pulls)
}
