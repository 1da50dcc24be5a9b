//! Why the line in force is the cheapest: theorems about lines over weighted points, each the
//! promise of one function. They hold for every list of points, and against all lines with whole
//! numbers of any size. The functions compute nothing: call one to have its theorem at hand.
//!
//! The argument, in short. From one line to another the total grows at least by its directional
//! derivative. For a line through two speeds, no direction has a derivative below 0 as soon as none
//! of the turns about its own points has: that is the test. Where a turn about a point has one, the
//! turn to the balance slope is strictly cheaper, and leaves fewer pairs of points whose line is
//! cheaper still.
#![tactic(auto)]

mod count_laws;
mod offset_laws;
mod rate_laws;
mod test_laws;
mod turn_laws;

pub use count_laws::{count_is_bounded, turn_lowers_the_count};
pub use offset_laws::balanced_offset_is_lowest_cheapest;
pub use rate_laws::{rates_add_up, rates_are_one_sided_slopes};
pub use test_laws::test_passes_exactly_when_cheapest;
pub use turn_laws::{turn_exists, turn_is_strictly_cheaper, turn_is_the_lowest_cheapest};
