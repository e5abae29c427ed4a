// What a step cites: checks 14 to 16, and 14 once more for a struck row.
ghost use Rattle.std.specs.Prelude.{◌≡◌};
ghost use Rattle.definition.specs.04-Checks.{in_order};
ghost use Rattle.definition.specs.17-Case.{case_of};
ghost use Rattle.definition.specs.18-Admission.{Parted};
ghost use Rattle.definition.specs.21-Rules.{a_row, a_condition};
ghost use Rattle.definition.specs.22-Steps.{citation_checks};
ghost use Rattle.words.specs.Meanings.{run_meant};
ghost use Rattle.step_shape.specs.Meanings.{names_meant};
ghost use Rattle.step_shape.specs.EntryChecks.{entry_checks};

use crate::rule_lines::Names;
use case_file::{Case, View, view_at};
use case_parts::{CONDITIONS, LABELS, LOG, OBLIGATIONS, condition_formula, count_of};
use formula_rows::Term;
use words::{Check, Refusal, single};

// An entry of a part that has so many `entries`: checks 14 and 15 of the step at `place`.
fn check_entry(entries: usize, argument: u16, place: u16) -> Result<(), Refusal>
    ensures { run_meant result ≡ in_order (entry_checks entries argument place) }
{
    single(Check::AbsentEntry, place, argument == Term::ABSENT)?;
    single(Check::BeyondEntries, place, entries <= argument as usize)
}

// Checks 14 and 15 of a condition, and 14 again where no reading was certified.
fn check_condition(file: &[u8], argument: u16, place: u16) -> Result<(), Refusal>
    requires { Parted file.now }
    ensures { run_meant result ≡ in_order (citation_checks (case_of file.now) a_condition argument place) }
{
    check_entry(count_of(file, CONDITIONS), argument, place)?;
    let reading = condition_formula(file, argument as usize);
    single(Check::AbsentEntry, place, reading == Term::ABSENT)
}

// Checks 14 and 15 of a log row, then 16 if the agent does not see it, then 14 if it is struck: in this order, so that nothing of a hidden row shows.
fn check_row(case: &Case, argument: u16, place: u16) -> Result<(), Refusal>
    ensures { run_meant result ≡ in_order (citation_checks (case_of case.now.file.now) a_row argument place) }
{
    check_entry(count_of(case.file, LOG), argument, place)?;
    let view = view_at(case.views, argument as usize);
    single(Check::UnseenRow, place, matches!(view, View::Hidden))?;
    single(Check::AbsentEntry, place, matches!(view, View::Struck))
}

// Checks 14 to 16 of the step at `place`.
pub fn check_citation(case: &Case, names: Names, argument: u16, place: u16) -> Result<(), Refusal>
    ensures { run_meant result ≡ in_order (citation_checks (case_of case.now.file.now) (names_meant names) argument place) }
{
    match names {
        Names::Nothing => Ok(()),
        Names::Label => check_entry(count_of(case.file, LABELS), argument, place),
        Names::Condition => check_condition(case.file, argument, place),
        Names::Row => check_row(case, argument, place),
        Names::Obligation => check_entry(count_of(case.file, OBLIGATIONS), argument, place),
        Names::Term => single(Check::AbsentEntry, place, argument == Term::ABSENT),
    }
}
