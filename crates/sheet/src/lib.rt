//! A sheet: the test shots of one valve and the line for them. Six calls work it (add, strike, pivot,
//! mount, slip, issue), and one more makes a whole life of such calls. What they promise over any
//! sequence is the law of the crate `law`, which each call's contract names. Three of its theorems
//! about lives are at hand here too.
#![tactic(auto)]

mod changing;
mod inner;
mod life;
mod pass;
mod sheet;
mod turning;

pub use law::{
    Call, Moment, Reply, Stage, Word, each_moment_is_kept, every_turn_carries_a_life_on,
    one_line_is_at_hand,
};
pub use life::{Lived, live};
pub use pass::Pass;
pub use sheet::Sheet;
