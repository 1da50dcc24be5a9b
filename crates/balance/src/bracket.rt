//! The bracket that closes in on the balance point.
ghost use Rattle.std.specs.Prelude.{◌≡◌, false, length, MatchOption};
ghost use Rattle.std.specs.List.{All, Contains};
ghost use Rattle.std.specs.Ordering.{is_gt};
ghost use Rattle.balance.specs.Brackets.{inside, Between};
ghost use Rattle.balance.specs.Orders.{at_most};

use crate::key::Key;
use crate::pull::Pull;

/// Two keys with the balance point above the one and at or below the other. What lies strictly
/// between is still open.
#[derive(Clone, Copy)]
pub(crate) struct Bracket<K> {
    /// A key that is known to fail, if there is one.
    pub low: Option<K>,
    /// A key that is known to hold.
    pub high: K,
}

impl<K: Key> Bracket<K> {
    /// Whether a key lies strictly between.
    fn has_inside(self, key: K) -> bool
        ensures { result ≡ inside (at_most K.cmp) self.low self.high key }
    {
        self.low.is_none_or(|low| low < key) && key < self.high
    }

    /// The middle one, by place, of the keys strictly between; none where there is no such key.
    pub(crate) fn middle(self, pulls: &[Pull<K>]) -> Option<K>
        ensures { Between (at_most K.cmp) pulls.now self.low self.high result }
    {
        // a loop: with a chain to `count()` a mount of 512 shots took 1.5 times as long
        let mut count: usize = 0;
        for pull in pulls {
            if self.has_inside(pull.key) {
                count += 1;
            }
        }
        pulls
            .iter()
            .filter(|pull| self.has_inside(pull.key))
            .nth(count / 2)
            .map(|pull| pull.key)
    }
}

/// The pull with the greatest key; none where there is no pull.
pub(crate) fn greatest<K: Key>(pulls: &[Pull<K>]) -> Option<&Pull<K>>
    ensures { MatchOption result (length pulls.now ≡ 0) (λ p. Contains pulls.now p.now × All (λ q. is_gt (K.cmp q.key p.now.key) ≡ false) pulls.now) }
{
    pulls.iter().max_by_key(|pull| pull.key)
}
