// The rows that each-use obligations name: check 32.
ghost use Rattle.std.specs.Prelude.{◌≡◌, ◌+◌, ◌<◌};
ghost use Rattle.definition.specs.04-Checks.{try, each};
ghost use Rattle.definition.specs.11-Layout.{obligation_part, count};
ghost use Rattle.definition.specs.17-Case.{case_of};
ghost use Rattle.definition.specs.23-Duties.{names_again};
ghost use Rattle.words.specs.Meanings.{run_meant};
ghost use Rattle.duties.specs.NamedRows.{NamedBefore};

use case_file::Case;
use case_parts::{OBLIGATIONS, count_of, obligation_at};
use formula_rows::Term;
use std::mem::replace;
use words::{Check, Refusal};

// Check 32 of obligation `o`: is it an each-use one that names a row which an earlier one names? The table has a flag for each row that those before it name, and afterwards for its own too.
fn names_again(case: &Case, o: usize, named: &mut [bool; 1024]) -> bool
    requires below { o < count case.now.file.now obligation_part }
    requires named_before { NamedBefore (case_of case.now.file.now) o named.old }
    ensures { (result ≡ names_again (case_of case.now.file.now) o) × NamedBefore (case_of case.now.file.now) (o + 1) named.new }
{
    let duty = obligation_at(case.file, o);
    duty.mark == 1 && duty.row != Term::ABSENT && replace(&mut named[duty.row as usize], true)
}

// Check 32. Its test changes the table of flags, so it is no `each`.
pub fn check_named_again(case: &Case) -> Result<(), Refusal>
    ensures { run_meant result ≡ try (each 32 (count case.now.file.now obligation_part) (names_again (case_of case.now.file.now))) }
{
    let mut named = [false; 1024];
    for o in 0..count_of(case.file, OBLIGATIONS) {
        if names_again(case, o, &mut named) {
            return Err(Refusal {
                check: Check::NamedAgain,
                place: o as u16,
            });
        }
    }
    Ok(())
}
