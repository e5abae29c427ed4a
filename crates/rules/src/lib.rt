// The sixteen rules: checks 27, 24, 25, 26 and 18, and what an action owes.
#![tactic(auto)]

mod comparisons;
mod fit;
mod policies;
mod sixteen;

pub use fit::check_fit;
pub use policies::{is_that, owed_by};
