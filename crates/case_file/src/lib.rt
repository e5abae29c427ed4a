// Case files: what their numbers name, the log, the records, and checks 1 to 9 in order.
#![tactic(auto)]

mod admission;
mod case;
mod formula_numbers;
mod log_checks;
mod record_checks;

pub use admission::{admit, admit_into, admit_log};
pub use case::Case;
pub use formula_numbers::closed_policy;
pub use log_checks::{HIDDEN, View, check_log, view_at};
pub use record_checks::check_records;
