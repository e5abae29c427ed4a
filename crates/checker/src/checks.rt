// The checker: a file and a room, any of them, to a verdict.
ghost use Rattle.std.specs.Prelude.{◌≡◌, List, ℕ, ◌<◌, length};
ghost use Rattle.definition.specs.04-Checks.{in_order};
ghost use Rattle.definition.specs.11-Layout.{step_part, count};
ghost use Rattle.definition.specs.17-Case.{case_of};
ghost use Rattle.definition.specs.31-Outcome.{owing_checks};
ghost use Rattle.definition.specs.45-Promises.{Answered};
ghost use Rattle.words.specs.Meanings.{run_meant};
ghost use Rattle.checker.specs.Meanings.{verdict_meant};
ghost use Rattle.checker.specs.Reports.{proof, owing_nothing, justifying, Reported};

use crate::ending::conclude;
use crate::run::run_steps;
use crate::verdict::Verdict;
use case_file::{Case, admit_into};
use case_parts::{FORMULAS, STEPS, action_of, agent_of, count_of, part};
use duties::check_duties;
use rules::owed_by;
use steps::StepTables;
use words::{Check, Refusal, single};

// The checks of the steps of a case that has some, and those after them.
fn check_steps(case: &Case, room: &mut [u16]) -> Result<Verdict, Refusal>
    requires { 0 < count case.now.file.now step_part }
    ensures { Reported (proof (case_of case.now.file.now) (length room.old)) room.old result room.new }
{
    let mut tables = StepTables {
        left: [0; 2048],
        cited: [false; 1024],
        discharged: [false; 64],
    };
    run_steps(case, &mut tables)?;
    conclude(case, &tables, room)
}

// Checks 10 and 11 of an admitted case.
fn check_owing(case: &Case) -> Result<(), Refusal>
    ensures { run_meant result ≡ in_order (owing_checks (case_of case.now.file.now)) }
{
    let action = action_of(case.file) as usize;
    let is_owed = owed_by(case.book, agent_of(case.file), action).is_some();
    let has_steps = 0 < count_of(case.file, STEPS);
    single(Check::NoSteps, 0, is_owed && !has_steps)?;
    single(Check::NothingOwed, 0, !is_owed && has_steps)
}

// Where nothing is owed and there are no steps: checks 31 and 32, and then "none owed". The room has no part in it.
fn check_owing_nothing(case: &Case) -> Result<Verdict, Refusal>
    ensures { (room : List ℕ) → Reported (owing_nothing (case_of case.now.file.now)) room result room }
{
    check_duties(case)?;
    Ok(Verdict::NoneOwed)
}

// What follows the admission: 10 and 11, the steps, and what comes after them. Where 10 and 11 let it pass, something is owed just if there are steps.
pub fn check_admitted(case: &Case, room: &mut [u16]) -> Result<Verdict, Refusal>
    ensures { Reported (justifying (case_of case.now.file.now) (length room.old)) room.old result room.new }
{
    check_owing(case)?;
    if count_of(case.file, STEPS) == 0 {
        return check_owing_nothing(case);
    }
    check_steps(case, room)
}

// The verdict on any bytes, and a room of any length. A pass writes the obligations discharged and then the log rows cited into the room; nothing else changes an entry.
pub fn check(file: &[u8], room: &mut [u16]) -> Result<Verdict, Refusal>
    ensures { Answered (λ v. v) file.now room.old (verdict_meant result) room.new }
{
    let mut views = [0u16; 1024];
    admit_into(file, &mut views)?;
    let case = Case {
        file,
        book: part(file, FORMULAS),
        views: &views,
    };
    check_admitted(&case, room)
}
