// Writing words and numbers into a buffer, one after the other. Each function answers where its text ends.
// The text is promised, so it is not written by a `Display`: no clause of a `fmt` says what it writes.
ghost use Rattle.std.specs.Prelude.{◌+◌, ◌≤◌, ◌<◌, [], ◌∷◌, length};
ghost use Rattle.check_case.specs.Written.{Written};
ghost use Rattle.definition.specs.33-Text.{numeral, line, pair};

// The bytes of a word.
pub fn put_word(word: &[u8], at: usize, out: &mut [u8]) -> usize
    requires { at + length word.now ≤ length out.old }
    ensures { Written out.old at word.now out.new result }
{
    let end = at + word.len();
    out[at..end].copy_from_slice(word);
    end
}

// A decimal digit.
fn put_digit(digit: u16, at: usize, out: &mut [u8]) -> usize
    requires is_digit { digit < 10 }
    requires in_bounds { at < length out.old }
    ensures { Written out.old at ((48 + digit) ∷ []) out.new result }
{
    out[at] = b'0' + digit as u8;
    at + 1
}

// A number in decimal: at most five digits.
pub fn put_number(n: u16, at: usize, out: &mut [u8]) -> usize
    requires { at + 5 ≤ length out.old }
    ensures { Written out.old at (numeral n) out.new result }
{
    if n < 10 {
        return put_digit(n, at, out);
    }
    let end = put_number(n / 10, at, out);
    put_digit(n % 10, end, out)
}

// A word, a number and a line end.
pub fn put_line(word: &[u8], n: u16, at: usize, out: &mut [u8]) -> usize
    requires { at + (length word.now + 6) ≤ length out.old }
    ensures { Written out.old at (line word.now n) out.new result }
{
    let number = put_word(word, at, out);
    let end = put_number(n, number, out);
    put_word(b"\n", end, out)
}

// A word, a number, a space, a number and a line end.
pub fn put_pair(word: &[u8], first: u16, second: u16, at: usize, out: &mut [u8]) -> usize
    requires { at + (length word.now + 12) ≤ length out.old }
    ensures { Written out.old at (pair word.now first second) out.new result }
{
    let number = put_word(word, at, out);
    let end = put_number(first, number, out);
    put_line(b" ", second, end, out)
}
