// The duties of a case: checks 31 and 32.
#![tactic(auto)]

mod kept;
mod named;

pub use kept::check_duties;
