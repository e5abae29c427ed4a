// The text of a verdict: "`case` and the bytes read, then `passed D R`, `none owed` or `refused N P`, then `duty N` per obligation and `row N` per log row".
ghost use Rattle.std.specs.Prelude.{◌+◌, ◌*◌, ◌≤◌, ◌≡◌, length, take, drop};
ghost use Rattle.checker.specs.Meanings.{verdict_meant};
ghost use Rattle.check_case.specs.Written.{Written};
ghost use Rattle.definition.specs.33-Text.{lines, verdict_line, entry_lines, report_text};

use crate::text::{put_line, put_pair, put_word};
use checker::Verdict;
use words::Refusal;

// The first entries, so many as there are, whatever the count.
fn first(entries: &[u16], count: u16) -> &[u16]
    ensures { result.now ≡ take count entries.now }
{
    &entries[..entries.len().min(count as usize)]
}

// The entries after the first ones, whatever the count.
fn after(entries: &[u16], count: u16) -> &[u16]
    ensures { result.now ≡ drop count entries.now }
{
    &entries[entries.len().min(count as usize)..]
}

// A line for each entry.
fn put_lines(word: &[u8], entries: &[u16], at: usize, out: &mut [u8]) -> usize
    requires word_len_bound { length word.now ≤ 5 }
    requires entries_in_bounds { at + 11 * length entries.now ≤ length out.old }
    ensures { Written out.old at (lines word.now entries.now) out.new result }
{
    let mut end = at;
    for entry in entries {
        end = put_line(word, *entry, end, out);
    }
    end
}

// The verdict's own line.
fn put_verdict(verdict: Result<Verdict, Refusal>, at: usize, out: &mut [u8]) -> usize
    requires { at + 20 ≤ length out.old }
    ensures { Written out.old at (verdict_line (verdict_meant verdict)) out.new result }
{
    match verdict {
        Ok(Verdict::Passed(obligations, rows)) => put_pair(b"passed ", obligations, rows, at, out),
        Ok(Verdict::NoneOwed) => put_word(b"none owed\n", at, out),
        Err(refusal) => put_pair(b"refused ", refusal.check.number(), refusal.place, at, out),
    }
}

// The lines of the room: obligations, then log rows.
fn put_room(verdict: Result<Verdict, Refusal>, room: &[u16], at: usize, out: &mut [u8]) -> usize
    requires { at + 11 * length room.now ≤ length out.old }
    ensures { Written out.old at (entry_lines (verdict_meant verdict) room.now) out.new result }
{
    match verdict {
        Ok(Verdict::Passed(obligations, rows)) => {
            let end = put_lines(b"duty ", first(room, obligations), at, out);
            put_lines(b"row ", first(after(room, obligations), rows), end, out)
        }
        Ok(Verdict::NoneOwed) => at,
        Err(_) => at,
    }
}

// The whole text, from the start of the buffer: at most 11 bytes for the first line, 20 for the verdict, 11 for each entry.
pub fn report(bytes: u16, verdict: Result<Verdict, Refusal>, room: &[u16], out: &mut [u8]) -> usize
    requires { 31 + 11 * length room.now ≤ length out.old }
    ensures { Written out.old 0 (report_text bytes (verdict_meant verdict) room.now) out.new result }
{
    let bytes_line = put_line(b"case ", bytes, 0, out);
    let verdict_line = put_verdict(verdict, bytes_line, out);
    put_room(verdict, room, verdict_line, out)
}
