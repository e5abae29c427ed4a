// Checks 6 to 9: the conditions, the obligations, the labels, and what is audited.
ghost use Rattle.std.specs.Prelude.{◌≡◌, ◌<◌, ◌≤◌};
ghost use Rattle.definition.specs.04-Checks.{in_order};
ghost use Rattle.definition.specs.11-Layout.{count, condition_part, obligation_part, label_part};
ghost use Rattle.case_file.specs.Booked.{Booked};
ghost use Rattle.definition.specs.15-Records.{log_of, rows_in, formulas as formulas_of, is_duty, bad_condition, bad_row_named, bad_obligation, bad_label, bad_audit, record_checks};
ghost use Rattle.words.specs.Meanings.{run_meant};

use crate::formula_numbers::{closed_action, closed_policy, ground_action, ground_predicate};
use case_parts::{
    CONDITIONS, LABELS, LOG, Mark, OBLIGATIONS, action_of, agent_of, condition_formula, count_of,
    hour_of, label_at, obligation_at,
};
use formula_rows::Term;
use words::{Check, Refusal, each, single};

// Check 6 of entry `k`. An absent condition is no fault.
fn bad_condition(file: &[u8], book: &[u8], k: usize) -> bool
    requires booked { Booked file.now book.now }
    requires k_bound { k < count file.now condition_part }
    ensures { result ≡ bad_condition file.now (formulas_of file.now) k }
{
    let condition = condition_formula(file, k);
    condition != Term::ABSENT && !ground_predicate(book, condition)
}

// Each use, or once.
fn is_duty(mark: u16) -> bool
    ensures { result ≡ is_duty mark }
{
    mark == Mark::EachUse as u16 || mark == Mark::Once as u16
}

// Is the row that an obligation names neither absent nor one of the log's, which has so many?
fn bad_row_named(rows: usize, row: u16) -> bool
    ensures { result ≡ bad_row_named rows row }
{
    row != Term::ABSENT && rows <= row as usize
}

// Check 7 of entry `k`.
fn bad_obligation(file: &[u8], book: &[u8], k: usize) -> bool
    requires booked { Booked file.now book.now }
    requires k_bound { k < count file.now obligation_part }
    ensures { result ≡ bad_obligation file.now (formulas_of file.now) (rows_in (log_of file.now)) k }
{
    let duty = obligation_at(file, k);
    !is_duty(duty.mark)
        || !ground_action(book, duty.action)
        || duty.due == Term::ABSENT
        || bad_row_named(count_of(file, LOG), duty.row)
}

// Check 8 of entry `k`.
fn bad_label(file: &[u8], book: &[u8], k: usize) -> bool
    requires booked { Booked file.now book.now }
    requires k_bound { k < count file.now label_part }
    ensures { result ≡ bad_label file.now (formulas_of file.now) k }
{
    let label = label_at(file, k);
    if label.is(Mark::Policy) {
        !closed_policy(book, label.formula)
    } else {
        !is_duty(label.mark) || !closed_action(book, label.formula)
    }
}

// Check 9: is the agent no agent, the action no ground action, or the audit hour absent?
fn bad_audit(file: &[u8], book: &[u8]) -> bool
    requires { Booked file.now book.now }
    ensures { result ≡ bad_audit file.now (formulas_of file.now) }
{
    Term::AGENTS_END <= agent_of(file)
        || !ground_action(book, action_of(file))
        || hour_of(file) == Term::ABSENT
}

// Checks 6 to 9.
pub fn check_records(file: &[u8], book: &[u8]) -> Result<(), Refusal>
    requires { Booked file.now book.now }
    ensures { run_meant result ≡ in_order (record_checks file.now) }
{
    each(
        Check::Condition,
        count_of(file, CONDITIONS),
        |k| bad_condition(file, book, k),
    )?;
    each(
        Check::Obligation,
        count_of(file, OBLIGATIONS),
        |k| bad_obligation(file, book, k),
    )?;
    each(
        Check::Label,
        count_of(file, LABELS),
        |k| bad_label(file, book, k),
    )?;
    single(Check::Audited, 0, bad_audit(file, book))
}
