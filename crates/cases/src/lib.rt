//! Worked examples, shown of the definitions themselves, in two tables, and one whole life of a
//! sheet. Each example has a name that says what it shows.
#![tactic(auto)]

mod concrete;
mod own_calls;
mod sample;
mod table;

pub use concrete::sample_life;
pub use own_calls::by_hand;
pub use sample::there_is_a_life;
pub use table::{worked_calls, worked_examples};

#[cfg(test)]
mod tests;
