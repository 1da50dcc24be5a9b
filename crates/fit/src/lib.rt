//! A line against the shots of a rack, under a price rule: what it costs, whether it is the cheapest
//! of all lines, the line to begin with, the line turned about a shot, and the offset for a slope.
#![tactic(auto)]

mod first;
mod fit;
mod lifts;
mod mounting;
mod prices;
mod rates;
mod spanning;
mod testing;
mod totals;
mod turning;
mod ways;

pub use first::first_line;
pub use fit::Fit;
pub use spanning::has_two_speeds;
