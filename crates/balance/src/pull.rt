//! A pull on the balance point.

/// A key and the two prices by which it pulls.
#[derive(Clone, Copy, PartialEq, Eq, Debug, Default)]
pub struct Pull<K> {
    /// Where it pulls to.
    pub key: K,
    /// What each step under the key costs, 1 to 8,000,000.
    pub under: u32,
    /// What each step over the key costs, 1 to 8,000,000.
    pub over: u32,
}
