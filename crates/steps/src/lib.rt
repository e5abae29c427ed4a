// One step of a justification: its checks in order, what it uses, and what it leaves behind.
#![tactic(auto)]

mod fresh;
mod refining;
mod step;
mod step_tables;
mod uses;

pub use step::take_step;
pub use step_tables::StepTables;
pub use uses::each_use_labels;
