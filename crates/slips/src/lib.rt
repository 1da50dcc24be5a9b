//! The slip of a line: one row for each held shot on it, with the shot's place and its two rates.
#![tactic(auto)]

mod row;
mod rows;

pub use row::Row;
pub use rows::write_rows;
