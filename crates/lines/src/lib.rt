//! Lines through shots: which three numbers make one, how far a shot lies off it, what that costs,
//! and which of two priced lines is cheaper.
#![tactic(auto)]

mod about;
mod between;
mod euclid;
mod intercept;
mod line;
mod making;
mod miss;
mod priced;
mod reduce;
mod share;
mod slope;
mod slope_order;
#[cfg(test)]
mod tests;
mod text;
mod through;

pub use euclid::gcd;
pub use line::Line;
pub use miss::Side;
pub use priced::PricedLine;
pub use reduce::reduced;
pub use share::charge;
pub use slope::Slope;
