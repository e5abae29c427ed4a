// Sets of labels and what a step rests on, by value; the table of what the steps leave behind, and tables of flags.
#![tactic(auto)]

mod flags;
mod left;
mod open_set;
mod rests;

pub use flags::{count_marked, write_lists};
pub use left::{is_used, mark_used, opens_at, rests_at, set_rests};
pub use open_set::OpenSet;
pub use rests::Resting;
