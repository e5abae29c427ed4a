// The list of pairs: where each file begins and ends in the buffer, and check 33.
ghost use Rattle.std.specs.Prelude.{◌≡◌, ◌<◌};
ghost use Rattle.definition.specs.04-Checks.{in_order};
ghost use Rattle.definition.specs.36-Night.{whole_pairs, begun_pairs, pair_offset, pair_end, last_end, bad_pair, pair_checks};
ghost use Rattle.words.specs.Meanings.{run_meant};

use words::{Check, Refusal, read_long, single};

// The most files of a night.
const MOST_FILES: usize = 64;

// The bytes of a pair.
const PAIR_BYTES: usize = 8;

// How many pairs the list has that are whole.
pub fn whole_pairs(list: &[u8]) -> usize
    ensures { result ≡ whole_pairs list.now }
{
    list.len() / PAIR_BYTES
}

// How many it begins: the last may be cut short.
fn begun_pairs(list: &[u8]) -> usize
    ensures { result ≡ begun_pairs list.now }
{
    list.len().div_ceil(PAIR_BYTES)
}

// Where the file of pair `k` begins in the buffer.
pub fn offset_of(list: &[u8], k: usize) -> usize
    requires { k < whole_pairs list.now }
    ensures { result ≡ pair_offset list.now k }
{
    read_long(list, PAIR_BYTES * k) as usize
}

// Where it ends: the sum of two numbers of 32 bits may have 33.
pub fn end_of(list: &[u8], k: usize) -> usize
    requires { k < whole_pairs list.now }
    ensures { result ≡ pair_end list.now k }
{
    read_long(list, PAIR_BYTES * k) as usize + read_long(list, PAIR_BYTES * k + 4) as usize
}

// Is pair `k` at fault? The pair before it ends at `last`.
fn bad_pair(files: &[u8], list: &[u8], k: usize, last: usize) -> bool
    requires { last ≡ last_end list.now k }
    ensures { result ≡ bad_pair files.now list.now k }
{
    MOST_FILES <= k
        || whole_pairs(list) <= k
        || offset_of(list, k) < last
        || files.len() < end_of(list, k)
}

// Check 33. At most 65 pairs are looked at, however long the list is.
pub fn check_pairs(files: &[u8], list: &[u8]) -> Result<(), Refusal>
    ensures { run_meant result ≡ in_order (pair_checks files.now list.now) }
{
    let mut last = 0;
    for k in 0..begun_pairs(list) {
        single(Check::Pair, k as u16, bad_pair(files, list, k, last))?;
        last = end_of(list, k);
    }
    Ok(())
}
