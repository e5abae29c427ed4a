// Reading standard input. What the system does no contract can say. So its last answer stays where the caller sees it, as a number and as bytes in a piece, and the contracts say what is made of it.
ghost use Rattle.std.specs.Prelude.{◌+◌, ◌-◌, ◌^◌, ◌≤◌, ◌<◌, ◌≡◌, length, IfOk};
ghost use Rattle.check_case.specs.Input.{got_of, clamp_len, answer_meant, answer_within, Taken, ReadFrom};
ghost use Rattle.check_case.specs.Written.{IsPrefixLen};
ghost use Rattle.definition.specs.34-Program.{most_read};

use crate::text::put_word;
use std::io;
use std::io::{Read, Stdin};

// What came of reading: so many bytes at the start of the buffer and there may be more, so many and all is read, or a read that failed.
// The definition has the same three cases: an `Option` or a `Result` would need a `bool` beside the count.
#[derive(Clone, Copy, Debug, PartialEq, Eq)]
pub enum Reading {
    More(usize),
    Whole(usize),
    Failed,
}

// How many bytes of the piece an answer counts: none where it is negative, and never more than there are.
fn count(got: isize, piece: &[u8]) -> usize
    ensures prefix_len { IsPrefixLen result piece.now }
    ensures value { result ≡ clamp_len got (length piece.now) }
{
    if 0 < got {
        piece.len().min(got as usize)
    } else {
        0
    }
}

// Takes what a read answered for the piece: an error, the end, or bytes, which go behind those in the buffer.
fn take_answer(done: usize, got: isize, piece: &[u8], buffer: &mut [u8]) -> Reading
    requires { done + length piece.now ≤ length buffer.old }
    ensures { Taken done (answer_meant got piece.now) buffer.old buffer.new result }
{
    if got < 0 {
        return Reading::Failed;
    }
    let more = count(got, piece);
    if more == 0 {
        return Reading::Whole(done);
    }
    let end = put_word(&piece[..more], done, buffer);
    if end < buffer.len() {
        Reading::More(end)
    } else {
        Reading::Whole(end)
    }
}

// What a read answered, as a number: how many bytes, or -1 for an error. A read that a signal interrupts has failed too.
fn number_of(answer: io::Result<usize>) -> isize
    requires { IfOk answer (λ count. count < 2 ^ 63) }
    ensures { result ≡ got_of answer }
{
    match answer {
        Ok(count) => count as isize,
        Err(_) => -1,
    }
}

// Reads once, by way of the piece: the one call of the system. An empty piece is not lent: that no byte comes would not be the end of the input.
fn read_piece(
    stdin: &mut Stdin,
    done: usize,
    got: &mut isize,
    piece: &mut [u8],
    buffer: &mut [u8],
) -> Reading
    requires piece_nonzero { 0 < length piece.old }
    requires piece_in_bounds { done + length piece.old ≤ length buffer.old }
    ensures { Taken done (answer_meant got.new piece.new) buffer.old buffer.new result }
{
    *got = number_of(stdin.read(piece));
    take_answer(done, *got, piece, buffer)
}

// Reads once, and no more than the buffer has room for.
fn read_on(
    stdin: &mut Stdin,
    done: usize,
    got: &mut isize,
    piece: &mut [u8],
    buffer: &mut [u8],
) -> Reading
    requires piece_nonzero { 0 < length piece.old }
    requires done_in_bounds { done < length buffer.old }
    ensures { Taken done (answer_within (length buffer.old - done) got.new piece.new) buffer.old buffer.new result }
{
    let most = piece.len().min(buffer.len() - done);
    read_piece(stdin, done, got, &mut piece[..most], buffer)
}

// Reads until the input ends, a read fails or the buffer is full, which has one byte more than the longest file.
pub fn read_case(stdin: &mut Stdin, got: &mut isize, piece: &mut [u8], buffer: &mut [u8]) -> Reading
    requires piece_nonzero { 0 < length piece.old }
    requires buffer_len { length buffer.old ≡ most_read }
    ensures { ReadFrom got.new piece.new buffer.old buffer.new result }
{
    let mut done = 0;
    loop {
        match read_on(stdin, done, got, piece, buffer) {
            Reading::More(count) => done = count,
            Reading::Whole(count) => return Reading::Whole(count),
            Reading::Failed => return Reading::Failed,
        }
    }
}
