// The rows of a book of formulas, and the terms in their fields.
#![tactic(auto)]

mod kinds;
mod nodes;
mod rows;
mod sought;
mod terms;

pub use kinds::{Kind, UnknownKind};
pub use nodes::Node;
pub use rows::{Row, row_at};
pub use sought::{Sought, has_sort, is_data_variable, is_instance, is_sought, is_term};
pub use terms::{Sort, Term};
