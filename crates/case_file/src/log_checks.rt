// The log rows: check 5, and the table of what the agent sees of each row.
ghost use Rattle.std.specs.Prelude.{◌≡◌, List, ◌+◌, ◌<◌, ◌≤◌, length, get_or};
ghost use Rattle.definition.specs.04-Checks.{in_order};
ghost use Rattle.definition.specs.13-Formulas.{Formula};
ghost use Rattle.definition.specs.14-Book.{book as trees};
ghost use Rattle.formula_book.specs.AdmittedBooks.{AdmittedBook};
ghost use Rattle.definition.specs.11-Layout.{log_part, observer_part, records_in};
ghost use Rattle.definition.specs.15-Records.{row_from, row_count, span_due, bad_action, log_checks};
ghost use Rattle.words.specs.Meanings.{run_meant};
ghost use Rattle.case_file.specs.Seen.{log_with, code_view, SeenUpTo, list_answer, row_answer, first_bad_row};
ghost use Rattle.case_file.specs.Meanings.{view_meant};

use crate::formula_numbers::ground_action;
use case_parts::{LOG, Log, OBSERVERS, bad_span, log_row_at, observer, records_in};
use formula_rows::{Sort, Term};
use words::{Check, Refusal};

// What the agent sees of a row: nothing, that it is struck, or the action with this number.
#[derive(Clone, Copy, Debug, PartialEq, Eq)]
pub enum View {
    Hidden,
    Struck,
    Shows(u16),
}

// What the table has for a hidden row. For any other it has the action's number.
pub const HIDDEN: u16 = 65534;

// Is the agent among the `len` observers from `from` on? None where they are not strictly ascending agents.
fn look(observers: &[u8], agent: u16, from: usize, len: usize) -> Option<bool>
    requires { from + len ≤ records_in observers.now observer_part }
    ensures { result ≡ list_answer observers.now agent from len }
{
    let mut least: usize = 0;
    let mut seen = false;
    for j in from..from + len {
        let entry = observer(observers, j);
        if (entry as usize) < least || !Term::from(entry).is_object(Sort::Agents) {
            return None;
        }
        // An `if`: by `seen || ..` a log of many observers takes half as long again.
        if entry == agent {
            seen = true;
        }
        least = entry as usize + 1;
    }
    Some(seen)
}

// Is the number neither absent nor a ground action's?
fn bad_action(book: &[u8], action: u16) -> bool
    requires { AdmittedBook book.now }
    ensures { result ≡ bad_action (trees book.now) action }
{
    action != Term::ABSENT && !ground_action(book, action)
}

// What the table has for row `k`, and where its span ends; none if the row is bad. Its span is due to begin at `due`.
fn tell_row(log: &Log, agent: u16, book: &[u8], due: usize, k: usize) -> Option<(u16, usize)>
    requires admitted_book { AdmittedBook book.now × (k < records_in log.now.rows.now log_part) }
    requires due_value { due ≡ span_due (row_from (log_with log.now.rows.now log.now.observers.now)) (row_count (log_with log.now.rows.now log.now.observers.now)) k }
    ensures { result ≡ row_answer (log_with log.now.rows.now log.now.observers.now) agent (trees book.now) k }
{
    let row = log_row_at(log.rows, k);
    let from = row.from as usize;
    let len = row.len as usize;
    let last = k + 1 == records_in(log.rows, LOG);
    let entries = records_in(log.observers, OBSERVERS);
    if bad_action(book, row.action) || bad_span(due, from, len, last, entries) {
        return None;
    }
    let seen = look(log.observers, agent, from, len)?;
    let code = if seen { row.action } else { HIDDEN };
    Some((code, from + len))
}

// Check 5 of a log. The table gets what the agent sees of each row before the first bad one.
pub fn check_log(log: &Log, agent: u16, book: &[u8], views: &mut [u16; 1024]) -> Result<(), Refusal>
    requires { AdmittedBook book.now × (records_in log.now.rows.now log_part ≤ 1024) × (length views.old ≡ 1024) }
    ensures { (run_meant result ≡ in_order (log_checks (log_with log.now.rows.now log.now.observers.now) (trees book.now))) × SeenUpTo (log_with log.now.rows.now log.now.observers.now) agent (first_bad_row (log_with log.now.rows.now log.now.observers.now) (trees book.now)) views.old views.new }
{
    let mut due: usize = 0;
    for k in 0..records_in(log.rows, LOG) {
        let Some((code, end)) = tell_row(log, agent, book, due, k) else {
            return Err(Refusal {
                check: Check::LogRow,
                place: k as u16,
            });
        };
        views[k] = code;
        due = end;
    }
    Ok(())
}

// What the agent sees of row `k`, by the table.
pub fn view_at(views: &[u16; 1024], k: usize) -> View
    requires { (k < 1024) × (length views.now ≡ 1024) }
    ensures { (l : List Formula) → view_meant l result ≡ code_view l (get_or views.now k 0) }
{
    match views[k] {
        HIDDEN => View::Hidden,
        Term::ABSENT => View::Struck,
        code => View::Shows(code),
    }
}
