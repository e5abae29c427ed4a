// The check of a case through an index: checks 1 to 9, then 30, and then as without one. What the agent sees is read from its own list.
ghost use Rattle.std.specs.Prelude.{◌≡◌, length};
ghost use Rattle.checker.specs.Meanings.{verdict_meant};
ghost use Rattle.checker.specs.Reports.{Reported};
ghost use Rattle.definition.specs.04-Checks.{accepts};
ghost use Rattle.definition.specs.18-Admission.{admission};
ghost use Rattle.definition.specs.35-Index.{finding_through};
ghost use Rattle.definition.specs.47-Indexed.{AnsweredThrough};

use crate::building::is_index_of;
use crate::seeing::see_listed;
use case_file::{Case, HIDDEN, admit};
use case_parts::{FORMULAS, agent_of, log_of, part};
use checker::{Verdict, check_admitted};
use words::{Check, Refusal, single};

// What follows the admission.
fn check_with(file: &[u8], index: &[u16], room: &mut [u16]) -> Result<Verdict, Refusal>
    requires { admission file.now ≡ accepts tt }
    ensures { Reported (finding_through file.now index.now (length room.old)) room.old result room.new }
{
    let log = log_of(file);
    single(Check::OtherIndex, 0, !is_index_of(&log, index))?;
    let mut views = [HIDDEN; 1024];
    see_listed(log.rows, index, agent_of(file), &mut views);
    let case = Case {
        file,
        book: part(file, FORMULAS),
        views: &views,
    };
    check_admitted(&case, room)
}

// The verdict on any bytes, with any table as the index, and a room of any length. It is that of the check without an index wherever 30 does not come.
pub fn check_through(file: &[u8], index: &[u16], room: &mut [u16]) -> Result<Verdict, Refusal>
    ensures { AnsweredThrough (λ v. v) file.now index.now room.old (verdict_meant result) room.new }
{
    admit(file)?;
    check_with(file, index, room)
}
