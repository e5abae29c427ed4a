// The parts of a case file: checks 1 and 2, and the records.
#![tactic(auto)]

mod layout;
mod named;
mod records;

pub use layout::{
    CONDITIONS, FORMULAS, LABELS, LARGEST_FILE, LOG, OBLIGATIONS, OBSERVERS, PREMISES, STEPS,
    action_of, agent_of, check_layout, count_of, hour_of, part, records_in,
};
pub use named::{Mark, Rule, UnknownRule};
pub use records::{
    Label, Log, LogRow, Obligation, Step, bad_span, condition_formula, label_at, log_of,
    log_row_at, obligation_at, observer, premise_step, step_at,
};
