//! The balance point.
ghost use Rattle.std.specs.Prelude.{◌≡◌, ◌≤◌, length};
ghost use Rattle.lines.specs.Slopes.{Each};
ghost use Rattle.balance.specs.Balances.{Every, Fair, holds, Answer, LowestKey, Even, Median};
ghost use Rattle.balance.specs.Orders.{at_most};

use crate::balance::Balance;
use crate::bracket::{Bracket, greatest};
use crate::fair::are_usable;
use crate::key::Key;
use crate::pull::Pull;

/// Whether a pull's key is at or below a key.
fn is_upto<K: Key>(pull: &Pull<K>, key: K) -> bool
    ensures { result ≡ at_most K.cmp pull.now.key key }
{
    pull.key <= key
}

/// Whether the sides balance at a key.
fn holds_at<K: Key>(pulls: &[Pull<K>], key: K) -> bool
    requires few { length pulls.now ≤ 512 }
    requires fair { Every Fair pulls.now }
    ensures { result ≡ holds (at_most K.cmp) pulls.now key }
{
    // one loop for the two sums: two chains would go over the pulls twice
    let mut under: u64 = 0;
    let mut over: u64 = 0;
    for pull in pulls {
        if is_upto(pull, key) {
            over += u64::from(pull.over);
        } else {
            under += u64::from(pull.under);
        }
    }
    under <= over
}

/// The balance point: the lowest key t among the pulls for which the under prices of all keys above t
/// add up to at most the over prices of all keys at or below t. None for no pulls, for more than 512,
/// and where a price is not 1 to 8,000,000.
pub fn balance_point<K: Key>(pulls: &[Pull<K>]) -> Option<Balance<K>>
    ensures point { Answer (at_most K.cmp) pulls.now result }
    ensures only { Each result (λ b. (t : K) → LowestKey (at_most K.cmp) pulls.now t → t ≡ b.lowest) }
    ensures median { Each result (λ b. Even pulls.now → Median (at_most K.cmp) pulls.now b.lowest) }
{
    if !are_usable(pulls) {
        return None;
    }
    let mut bracket = Bracket {
        low: None,
        // above the greatest key there is nothing, so the sides balance there
        high: greatest(pulls)?.key,
    };
    while let Some(key) = bracket.middle(pulls) {
        if holds_at(pulls, key) {
            bracket.high = key;
        } else {
            bracket.low = Some(key);
        }
    }
    Some(Balance {
        lowest: bracket.high,
    })
}
