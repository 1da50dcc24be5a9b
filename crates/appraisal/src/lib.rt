//! What a card costs over test shots: the text lines of the program `appraise`, read, judged and
//! answered. The program only carries bytes in and answers out. Beside that, which line is the
//! cheapest, found by a life of the same shots.
#![tactic(auto)]

mod answer;
mod deciding;
mod finding;
mod judging;
mod planning;
mod reading;
mod text;

pub use answer::{Answer, CheaperLine};
pub use deciding::verdict;
pub use finding::{BestLine, Finding, Found, find_best, settles};
pub use judging::{close, judge};
pub use planning::plan;
pub use reading::{read_card, read_entry};
pub use shots::Entry;
pub use text::text_line;

#[cfg(test)]
mod tests;
