// The checker: the steps in order, the end of a justification, and the verdict on a file and a room.
#![tactic(auto)]

mod checks;
mod ending;
mod run;
mod verdict;

pub use checks::{check, check_admitted};
pub use verdict::Verdict;
