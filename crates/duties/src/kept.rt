// Obligations that have expired, and whether they were done: check 31; and both checks in order.
ghost use Rattle.std.specs.Prelude.{false, ◌≡◌, ◌<◌};
ghost use Rattle.definition.specs.04-Checks.{in_order};
ghost use Rattle.definition.specs.11-Layout.{formula_part, obligation_part, count};
ghost use Rattle.definition.specs.14-Book.{tree_in};
ghost use Rattle.definition.specs.15-Records.{log_of, rows_in, formulas as formulas_of, bad_row_named};
ghost use Rattle.definition.specs.17-Case.{row_named, case_of};
ghost use Rattle.definition.specs.23-Duties.{done_by, undone as undone_of, duty_checks};
ghost use Rattle.words.specs.Meanings.{run_meant};

use crate::named::check_named_again;
use case_file::{Case, View, view_at};
use case_parts::{OBLIGATIONS, count_of, hour_of, obligation_at};
use formula_rows::Term;
use words::{Check, Refusal, each};

// Does the row named, if one is, carry the action, as the agent sees it? An unseen row does not, and neither does a struck one.
fn done_by(case: &Case, row: u16, action: u16) -> bool
    requires row_value { (bad_row_named (rows_in (log_of case.now.file.now)) row ≡ false) × (action < count case.now.file.now formula_part) }
    ensures { result ≡ done_by (case_of case.now.file.now) (row_named row) (tree_in (formulas_of case.now.file.now) action) }
{
    row != Term::ABSENT
        && match view_at(case.views, row as usize) {
            View::Hidden => false,
            View::Struck => false,
            View::Shows(shown) => shown == action,
        }
}

// Check 31 of obligation `o`: is it due before the audit hour, and not done?
fn undone(case: &Case, o: usize) -> bool
    requires { o < count case.now.file.now obligation_part }
    ensures { result ≡ undone_of (case_of case.now.file.now) o }
{
    let duty = obligation_at(case.file, o);
    duty.due < hour_of(case.file) && !done_by(case, duty.row, duty.action)
}

// Checks 31 and 32 of an admitted case.
pub fn check_duties(case: &Case) -> Result<(), Refusal>
    ensures { run_meant result ≡ in_order (duty_checks (case_of case.now.file.now)) }
{
    each(
        Check::Undone,
        count_of(case.file, OBLIGATIONS),
        |o| undone(case, o),
    )?;
    check_named_again(case)
}
