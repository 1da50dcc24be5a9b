//! The stage of a sheet.
use lines::Line;

/// How far a sheet has come.
#[derive(Clone, Copy, PartialEq, Eq, Debug)]
pub enum Stage {
    /// No line is laid.
    Bare,
    /// A line is laid, and not known to be the cheapest.
    Trying(Line),
    /// The line is in force.
    InForce(Line),
}
