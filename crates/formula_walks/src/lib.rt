// Walks over a formula, row by row: what stands in it, its data and the lowest row with a data variable, and whether it is another with a term put in.
#![tactic(auto)]

mod data_set;
mod data_walk;
mod instances;
mod occurs;

pub use data_walk::{Gathered, policy_data};
pub use instances::policy_instance;
pub use occurs::{action_has, policy_has};
