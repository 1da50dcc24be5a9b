//! What everything else is made of: why a call refuses, test shots with their six-byte image,
//! and the price rules that say what a late and an early shot cost.
#![tactic(auto)]

mod by_stuff;
mod entry;
mod even;
mod image;
mod making;
mod prices;
mod refusal;
mod shot;
mod stuff_prices;

pub use entry::Entry;
pub use even::EvenPrices;
pub use prices::PriceRule;
pub use refusal::Refusal;
pub use shot::Shot;
pub use stuff_prices::StuffPrices;

#[cfg(test)]
mod tests;
