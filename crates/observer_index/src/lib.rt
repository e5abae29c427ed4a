// The index of a log by observer: building it, and the check of a case through it.
#![tactic(auto)]

mod building;
mod entries;
mod heads;
mod log_rows;
mod seeing;
mod tallies;
mod through;

pub use building::build;
pub use through::check_through;
