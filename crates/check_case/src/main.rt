// The program: a case on standard input, its verdict on standard output.
#![tactic(auto)]

mod input;
mod report;
mod text;

ghost use Rattle.std.specs.Prelude.{◌≤◌, ◌<◌, ◌≡◌, length};
ghost use Rattle.check_case.specs.Input.{reading_meant, Held};
ghost use Rattle.check_case.specs.Told.{Tells, Judged};
ghost use Rattle.check_case.specs.Written.{Written, IsPrefixLen};
ghost use Rattle.definition.specs.33-Text.{answer_text};
ghost use Rattle.definition.specs.34-Program.{most_read, printed};

use case_parts::LARGEST_FILE;
use input::{Reading, read_case};
use report::report;
use std::io::Stdin;

// The most bytes that are read: one more than the largest file has, so that a longer input is refused for its length.
const MOST_READ: usize = LARGEST_FILE + 1;

// Puts the program's answer to a case at the start of the text, and answers how long it is. "The program lends a room of 1,088 entries"; a text for these has at most 11,999 bytes.
fn answer(case: &[u8], text: &mut [u8]) -> usize
    requires case_len_bound { length case.now ≤ most_read }
    requires in_bounds { 12000 ≤ length text.old }
    ensures prefix_len { IsPrefixLen result text.new }
    ensures written { Written text.old 0 (answer_text case.now) text.new result }
{
    let mut room = [0u16; 1088];
    let verdict = checker::check(case, &mut room);
    report(case.len() as u16, verdict, &room, text)
}

// Tells the answer to a case that was read whole, by the length of its text. What cannot be read whole is not judged: a part of a case is another case.
fn tell(reading: Reading, case: &[u8], text: &mut [u8]) -> Option<usize>
    requires held { Held reading case.now }
    requires case_len_bound { length case.now ≤ most_read }
    requires in_bounds { 12000 ≤ length text.old }
    ensures { Tells (printed (reading_meant reading case.now)) text.old text.new result }
{
    match reading {
        Reading::Whole(count) => Some(answer(&case[..count], text)),
        Reading::More(_) | Reading::Failed => None,
    }
}

// Reads a case from standard input, and tells its answer. The last answer of the system is left in `got` and `piece`.
fn judge_input(
    stdin: &mut Stdin,
    got: &mut isize,
    piece: &mut [u8],
    case: &mut [u8],
    text: &mut [u8],
) -> Option<usize>
    requires piece_nonzero { 0 < length piece.old }
    requires case_len { length case.old ≡ most_read }
    requires in_bounds { 12000 ≤ length text.old }
    ensures { Judged got.new piece.new case.old case.new text.old text.new result }
{
    let reading = read_case(stdin, got, piece, case);
    tell(reading, case, text)
}

// Writes what there is to print, or that there is nothing. Where a complaint cannot be written either, nothing is left to be done.
fn main(rt: HostRuntime) {
    let mut stdin = rt.stdin();
    let mut got = 0isize;
    let mut piece = [0u8; 4096];
    let mut case = [0u8; MOST_READ];
    let mut text = [0u8; 12000];
    match judge_input(&mut stdin, &mut got, &mut piece, &mut case, &mut text) {
        Some(end) => {
            if rt.write_all(&text[..end]).is_err() {
                let _ = eprintln!(rt; "check_case: cannot write standard output");
            }
        }
        None => {
            let _ = eprintln!(rt; "check_case: cannot read standard input");
        }
    }
}
