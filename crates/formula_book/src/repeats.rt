// Rows that repeat a lower one. The rows below the one at hand stand in binary trees, one for each sum. At each row of a tree the next bit of the key tells which branch to follow: a key has 64 bits, so a walk passes at most 65 rows, whatever the book.
ghost use Rattle.std.specs.Prelude.{true, ◌≡◌, ◌+◌, ◌*◌, ◌<◌, ◌≤◌, length, MatchOption};
ghost use Rattle.definition.specs.04-Checks.{try, each};
ghost use Rattle.definition.specs.14-Book.{book_rows, repeats_lower};
ghost use Rattle.formula_rows.specs.Meanings.{row_meant};
ghost use Rattle.formula_book.specs.RowTrees.{Bucket, key_of, Linked, FreeSlot};
ghost use Rattle.words.specs.Meanings.{run_meant};

use formula_rows::{Row, row_at};
use words::{Check, Refusal};

// The bucket of a row: a weighted sum that spreads rows which differ a little in one or two fields.
fn bucket(row: Row) -> usize
    ensures { Bucket (row_meant row) result }
{
    let tags = 859 * (row.kind as usize) + 758 * (row.code as usize);
    let fields = 708 * (row.x as usize) + 764 * (row.y as usize) + 466 * (row.z as usize);
    (tags + fields) % 1021
}

// The key of a row: its eight bytes as one number, the last field lowest.
fn key(row: Row) -> usize
    ensures { result ≡ key_of (row_meant row) }
{
    let tags = 256 * (row.kind as usize) + row.code as usize;
    let fields = 65536 * (65536 * (row.x as usize) + row.y as usize) + row.z as usize;
    281474976710656 * tags + fields
}

// Where row `k` goes, unless it repeats a lower row. The slots below 1,024 are those of the buckets; behind them each row has two, for its branches. A slot has 0, or one more than a row.
fn find_spot(book: &[u8], links: &[u16; 3072], k: usize) -> Option<usize>
    requires { (8 * k + 8 ≤ length book.now) × (k < 1024) × Linked book.now links.now k }
    ensures { MatchOption result (repeats_lower book.now k ≡ true) (λ slot. FreeSlot book.now links.now k slot) }
{
    let row = row_at(book, k);
    let mut slot = bucket(row);
    let mut rest = key(row);
    while links[slot] > 0 {
        let link = links[slot] as usize;
        if row_at(book, link - 1) == row {
            return None;
        }
        slot = 1022 + 2 * link + rest % 2;
        rest /= 2;
    }
    Some(slot)
}

// Check 4 of a book of few rows.
pub fn check_repeats(book: &[u8]) -> Result<(), Refusal>
    requires { book_rows book.now ≤ 1024 }
    ensures { run_meant result ≡ try (each 4 (book_rows book.now) (repeats_lower book.now)) }
{
    let mut links = [0u16; 3072];
    // The table of links changes from row to row, so this is no `each`.
    for k in 0..book.len() / 8 {
        let Some(slot) = find_spot(book, &links, k) else {
            return Err(Refusal {
                check: Check::RepeatedFormula,
                place: k as u16,
            });
        };
        links[slot] = k as u16 + 1;
    }
    Ok(())
}
