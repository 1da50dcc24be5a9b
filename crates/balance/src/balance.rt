//! Where pulls balance.

/// The balance point of some pulls.
// a struct and no bare key: the other end of the balance may stand beside it one day
#[derive(Clone, Copy, PartialEq, Eq, Debug)]
pub struct Balance<K> {
    /// The lowest key among the pulls at which the sides balance.
    pub lowest: K,
}
