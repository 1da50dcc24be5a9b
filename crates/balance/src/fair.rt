//! Which pulls can be balanced: 1 to 512 of them, with prices of 1 to 8,000,000.
ghost use Rattle.std.specs.Prelude.{Decides};
ghost use Rattle.balance.specs.Balances.{Fair, Usable};

use crate::pull::Pull;

/// The greatest number of pulls.
const MOST_PULLS: usize = 512;

/// The greatest price.
const DEAREST: u32 = 8_000_000;

fn is_fair<K>(pull: &Pull<K>) -> bool
    ensures { Decides result (Fair pull.now) }
{
    (1..=DEAREST).contains(&pull.under) && (1..=DEAREST).contains(&pull.over)
}

/// Whether the pulls have a balance point.
pub(crate) fn are_usable<K>(pulls: &[Pull<K>]) -> bool
    ensures { Decides result (Usable pulls.now) }
{
    (1..=MOST_PULLS).contains(&pulls.len()) && pulls.iter().all(is_fair)
}
