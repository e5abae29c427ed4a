// Admission of a case file: the groups of checks 1 to 9, in order, over any bytes. Checks 1 and 2 are `case_parts::check_layout`, 3 and 4 `formula_book::admit`, 5 `check_log`, 6 to 9 `check_records`.
ghost use Rattle.std.specs.Prelude.{◌≡◌, length};
ghost use Rattle.definition.specs.04-Checks.{in_order};
ghost use Rattle.definition.specs.11-Layout.{formula_part, part as part_of};
ghost use Rattle.definition.specs.14-Book.{book_checks};
ghost use Rattle.definition.specs.18-Admission.{Parted, checks_to_log, admission};
ghost use Rattle.words.specs.Meanings.{run_meant};
ghost use Rattle.case_file.specs.AdmissionRuns.{before_log, from_book};
ghost use Rattle.case_file.specs.Seen.{SeenAfter};

use crate::log_checks::check_log;
use crate::record_checks::check_records;
use case_parts::{FORMULAS, agent_of, check_layout, log_of, part};
use words::Refusal;

// Checks 3 to 5, of a file whose parts are where the header says.
fn admit_parts(file: &[u8], views: &mut [u16; 1024]) -> Result<(), Refusal>
    requires { Parted file.now × (length views.old ≡ 1024) }
    ensures { (run_meant result ≡ from_book file.now) × SeenAfter (in_order (book_checks (part_of file.now formula_part))) file.now views.old views.new }
{
    let book = part(file, FORMULAS);
    formula_book::admit(book)?;
    check_log(&log_of(file), agent_of(file), book, views)
}

// The first of checks 1 to 5 that fails, of any bytes, with the table of what the agent sees of each row: entries of rows beyond the first bad one, and all entries where checks 1 to 4 refuse, stay as they are.
pub fn admit_log(file: &[u8], views: &mut [u16; 1024]) -> Result<(), Refusal>
    requires { length views.old ≡ 1024 }
    ensures { (run_meant result ≡ in_order (checks_to_log file.now)) × SeenAfter (before_log file.now) file.now views.old views.new }
{
    check_layout(file)?;
    admit_parts(file, views)
}

// The first of checks 1 to 9 that fails, of any bytes, with the same table.
pub fn admit_into(file: &[u8], views: &mut [u16; 1024]) -> Result<(), Refusal>
    requires { length views.old ≡ 1024 }
    ensures { (run_meant result ≡ admission file.now) × SeenAfter (before_log file.now) file.now views.old views.new }
{
    admit_log(file, views)?;
    check_records(file, part(file, FORMULAS))
}

// The first of checks 1 to 9 that fails, of any bytes.
pub fn admit(file: &[u8]) -> Result<(), Refusal>
    ensures { run_meant result ≡ admission file.now }
{
    let mut views = [0u16; 1024];
    admit_into(file, &mut views)
}
