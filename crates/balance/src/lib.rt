//! The balance point (weighted quantile) of pulls on keys, for every kind of key whose order is total.
//! A pull is a key with an under price and an over price. The balance point is the lowest key t among
//! the pulls for which the under prices of all keys above t add up to at most the over prices of all
//! keys at or below t. No list is sorted, since the pulls are lent
//! to be read alone: a bracket of two keys closes in on the point.
#![tactic(auto)]

mod balance;
mod bracket;
mod fair;
mod key;
mod point;
mod pull;
#[cfg(test)]
mod tests;
mod whole_point;

pub use balance::Balance;
pub use key::Key;
pub use point::balance_point;
pub use pull::Pull;
pub use whole_point::whole_balance_point;
