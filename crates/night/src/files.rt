// The files of a night, one after the other, each in the part of the room where the passes before it stopped writing.
ghost use Rattle.std.specs.Prelude.{◌≡◌, ◌≤◌, ◌<◌, length};
ghost use Rattle.checker.specs.Meanings.{verdict_meant};
ghost use Rattle.definition.specs.32-Numbers.{verdict_entry};
ghost use Rattle.definition.specs.36-Night.{whole_pairs, pair_end, file_at, entries_of};
ghost use Rattle.definition.specs.71-Nights.{lent_for, Sound, NightAnswered};
ghost use Rattle.words.specs.Meanings.{run_meant};
ghost use Rattle.night.specs.Nights.{CheckedAlone, AllTold};

use crate::pairs::{check_pairs, end_of, offset_of, whole_pairs};
use answers::VerdictNumbers;
use checker::{Verdict, check};
use words::Refusal;

// File `k` alone, in the part of the room that is lent.
fn check_file(files: &[u8], list: &[u8], k: usize, room: &mut [u16]) -> Result<Verdict, Refusal>
    requires { (k < whole_pairs list.now) × (pair_end list.now k ≤ length files.now) }
    ensures { CheckedAlone (file_at files.now list.now k) room.old result room.new }
{
    let from = offset_of(list, k);
    let end = end_of(list, k);
    check(&files[from..end], room)
}

// The entries that a file with this verdict has written.
fn entries_of(verdict: Result<Verdict, Refusal>) -> usize
    ensures { result ≡ entries_of (verdict_meant verdict) }
{
    match verdict {
        Ok(Verdict::Passed(obligations, rows)) => obligations as usize + rows as usize,
        Ok(Verdict::NoneOwed) => 0,
        Err(_) => 0,
    }
}

// A verdict as an entry of the table.
fn entry_of(verdict: Result<Verdict, Refusal>) -> [u16; 3]
    ensures { result ≡ verdict_entry (verdict_meant verdict) }
{
    let numbers = VerdictNumbers::from(verdict);
    [numbers.kind, numbers.first, numbers.second]
}

// All files. The table is a slice, since a slice's length is a fact that a proof has.
fn check_files(files: &[u8], list: &[u8], verdicts: &mut [[u16; 3]], room: &mut [u16])
    requires { Sound (lent_for files.now list.now verdicts.old room.old) × (length verdicts.old ≡ 64) }
    ensures { AllTold (lent_for files.now list.now verdicts.old room.old) verdicts.new room.new }
{
    let n = whole_pairs(list);
    let mut d = 0;
    for k in 0..n {
        let verdict = check_file(files, list, k, &mut room[d..]);
        verdicts[k] = entry_of(verdict);
        d += entries_of(verdict);
    }
}

// The night of any bytes as files, any bytes as the list, and a room of any length. The answer is the number of files, or 33 with its place; then no entry changes.
pub fn check_night(
    files: &[u8],
    list: &[u8],
    verdicts: &mut [[u16; 3]],
    room: &mut [u16],
) -> Result<u16, Refusal>
    requires { length verdicts.old ≡ 64 }
    ensures { NightAnswered (λ c. c) (lent_for files.now list.now verdicts.old room.old) (run_meant result) verdicts.new room.new }
{
    check_pairs(files, list)?;
    check_files(files, list, verdicts, room);
    Ok(whole_pairs(list) as u16)
}
