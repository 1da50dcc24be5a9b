//! The law of a sheet's life: how far a sheet can have come, what may be called on it and what is
//! answered, what one call does to what can be seen of a sheet, and what holds over every sequence of
//! calls. It is proved here once, over values; the crate `sheet` has the calls that keep it.
#![tactic(auto)]

mod kinds;
mod laws;
mod stage;
mod text;

pub use kinds::{Call, Moment, Pivoted, Reply, Word};
pub use laws::{
    each_moment_is_kept, enough_pivots_bring_a_line_into_force, every_turn_carries_a_life_on,
    one_line_is_at_hand, the_law_fixes_every_answer,
};
pub use stage::Stage;
