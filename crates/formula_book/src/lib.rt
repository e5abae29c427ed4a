// The formula book: checks 3 and 4, and what the rules ask of a formula.
#![tactic(auto)]

mod admission;
mod answers;
mod fields;
mod repeats;

pub use admission::{admit, admit_into};
pub use answers::{data_of, formula_has, is_body_with, is_closed, is_ground, size_of};
