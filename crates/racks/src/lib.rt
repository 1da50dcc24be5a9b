//! Racks: shots in order, in memory that the caller lends. A rack is whatever answers as `Rack`
//! says; here are one in records, one in packed bytes, a layer that negates each lead, the rule that a
//! lent rack is a rack, the iterator over the shots of a rack, and whether a rack holds no shot.
#![tactic(auto)]

mod iter;
mod lent;
mod mirror;
mod packed_rack;
mod place;
mod rack;
mod record_rack;

pub use iter::Iter;
pub use mirror::Mirror;
pub use packed_rack::PackedRack;
pub use rack::{MOST_SHOTS, Rack};
pub use record_rack::RecordRack;

#[cfg(test)]
mod tests;
