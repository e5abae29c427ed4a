// The end of a justification: checks 20 to 22, those of the duties, 23, and the two lists.
ghost use Rattle.std.specs.Prelude.{◌≡◌, List, Bool, ℕ, ◌+◌, ◌<◌, length};
ghost use Rattle.definition.specs.04-Checks.{in_order};
ghost use Rattle.definition.specs.11-Layout.{step_part, count};
ghost use Rattle.definition.specs.18-Admission.{Parted};
ghost use Rattle.definition.specs.17-Case.{case_of};
ghost use Rattle.definition.specs.31-Outcome.{wrong_end, closing_checks};
ghost use Rattle.words.specs.Meanings.{run_meant};
ghost use Rattle.steps.specs.WorkingTables.{state_of};
ghost use Rattle.case_parts.specs.ShapedSteps.{EarlierNumbered};
ghost use Rattle.checker.specs.Reports.{listing, concluding, Reported};

use crate::verdict::Verdict;
use case_file::Case;
use case_parts::{LABELS, LOG, OBLIGATIONS, STEPS, action_of, agent_of, count_of, step_at};
use duties::check_duties;
use rules::{is_that, owed_by};
use steps::StepTables;
use tables::{count_marked, is_used, opens_at, write_lists};
use words::{Check, Refusal, each, single};

// Check 22: is the formula of the last step not what is owed?
fn wrong_end(case: &Case, last: usize) -> bool
    requires { (last + 1 ≡ count case.now.file.now step_part) × EarlierNumbered case.now.file.now (count case.now.file.now step_part) }
    ensures { result ≡ wrong_end (case_of case.now.file.now) }
{
    let action = action_of(case.file) as usize;
    let owed = owed_by(case.book, agent_of(case.file), action);
    let step = step_at(case.file, last);
    !is_that(case.book, step.formula as usize, owed)
}

// Check 23, and where it lets the case pass, the obligations discharged and the rows cited into the room.
fn list_cited(file: &[u8], tables: &StepTables, room: &mut [u16]) -> Result<Verdict, Refusal>
    requires { Parted file.now }
    ensures { (l : List ℕ) → Reported (listing (case_of file.now) (state_of l tables.now.cited tables.now.discharged) (length room.old)) room.old result room.new }
{
    let obligations = count_of(file, OBLIGATIONS);
    let rows = count_of(file, LOG);
    let d = count_marked(&tables.discharged, obligations);
    let r = count_marked(&tables.cited, rows);
    let needed = d + r;
    single(Check::ShortRoom, needed as u16, room.len() < needed)?;
    write_lists(
        room,
        &tables.discharged,
        obligations,
        d,
        &tables.cited,
        rows,
    );
    Ok(Verdict::Passed(d as u16, r as u16))
}

// Checks 20 to 22, after the last step. The rows cited and the obligations discharged have no part in them.
fn check_closing(case: &Case, left: &[u64; 2048]) -> Result<(), Refusal>
    requires { (0 < count case.now.file.now step_part) × EarlierNumbered case.now.file.now (count case.now.file.now step_part) }
    ensures { (c d : List Bool) → run_meant result ≡ in_order (closing_checks (case_of case.now.file.now) (state_of left.now c d)) }
{
    let last = count_of(case.file, STEPS) - 1;
    let labels = count_of(case.file, LABELS);
    let open_labels = opens_at(left, last);
    each(Check::UnusedStep, last, |k| !is_used(left, k))?;
    each(Check::OpenLabel, labels, |l| open_labels.has(l as u32))?;
    single(Check::WrongEnd, last as u16, wrong_end(case, last))
}

// Checks 20 to 23, with 31 and 32 before 23, after the last step, and the lists.
pub fn conclude(case: &Case, tables: &StepTables, room: &mut [u16]) -> Result<Verdict, Refusal>
    requires { (0 < count case.now.file.now step_part) × EarlierNumbered case.now.file.now (count case.now.file.now step_part) }
    ensures { Reported (concluding (case_of case.now.file.now) (state_of tables.now.left tables.now.cited tables.now.discharged) (length room.old)) room.old result room.new }
{
    check_closing(case, &tables.left)?;
    check_duties(case)?;
    list_cited(case.file, tables, room)
}
