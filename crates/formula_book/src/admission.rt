// Admission of a book: checks 3 and 4 over any bytes, and the column of sizes.
ghost use Rattle.std.specs.Prelude.{◌≡◌, false, ◌≤◌, ◌<◌, length, IfSome};
ghost use Rattle.definition.specs.02-Ranges.{lowest};
ghost use Rattle.definition.specs.04-Checks.{try, each};
ghost use Rattle.definition.specs.14-Book.{book_rows, book as trees, bad_formula, is_misshapen, book_admission, size_column};
ghost use Rattle.formula_book.specs.Sizes.{SizesHeld, SizesTold, ChildrenHeld, size_at};
ghost use Rattle.formula_rows.specs.Meanings.{node_meant};
ghost use Rattle.formula_rows.specs.Nodes.{nodes_of};
ghost use Rattle.words.specs.Meanings.{run_meant};

use crate::answers::size_of;
use crate::fields::fields_fit;
use crate::repeats::check_repeats;
use formula_rows::{Node, row_at};
use words::{Check, Refusal, single};

// The nodes of a row by its node, from the sizes of its children.
fn node_size(book: &[u8], sizes: &[u8], node: Node) -> usize
    requires { ChildrenHeld book.now sizes.now (node_meant node) }
    ensures { result ≡ nodes_of (trees book.now) (node_meant node) }
{
    match node {
        Node::Leaf(..) | Node::None => 1,
        Node::Said(_, x, _) => size_of(book, sizes, x as usize) + 1,
        Node::Body(x) => size_of(book, sizes, x as usize) + 1,
        Node::Pair(x, y) | Node::Duty(x, y) => {
            size_of(book, sizes, x as usize) + size_of(book, sizes, y as usize) + 1
        }
    }
}

// The nodes of row `k`, unless it is bad. The column has the sizes of the rows below it.
fn size_at(book: &[u8], sizes: &[u8], k: usize) -> Option<usize>
    requires sizes_held { SizesHeld book.now sizes.now k }
    requires k_bound { (k < book_rows book.now) × (k < 1024) }
    ensures { (result ≡ size_at book.now k) × IfSome result (λ size. size ≤ 64) }
{
    let row = row_at(book, k);
    if !fields_fit(book, k, row) {
        return None;
    }
    let size = node_size(book, sizes, Node::from(row));
    (size <= 64).then_some(size)
}

// Check 3. The sizes of the rows before the lowest bad one come into the column, of all rows where there is none; its other bytes stay as they were.
fn check_rows(book: &[u8], sizes: &mut [u8]) -> Result<(), Refusal>
    requires { (book_rows book.now ≤ 1024) × (length sizes.old ≡ 1024) }
    ensures { (run_meant result ≡ try (each 3 (book_rows book.now) (bad_formula book.now (trees book.now)))) × SizesTold book.now sizes.old sizes.new (lowest (bad_formula book.now (trees book.now)) (book_rows book.now) 0) }
{
    // The column changes from row to row, so this is no `each`.
    for k in 0..book.len() / 8 {
        let Some(size) = size_at(book, sizes, k) else {
            return Err(Refusal {
                check: Check::Formula,
                place: k as u16,
            });
        };
        sizes[k] = size as u8;
    }
    Ok(())
}

// Are the bytes no whole number of rows, or too many?
fn is_misshapen(book: &[u8]) -> bool
    ensures { result ≡ is_misshapen book.now }
{
    book.len() % 8 != 0 || 1024 < book.len() / 8
}

// Checks 3 and 4 of any bytes as a book, with the column of sizes. Bytes that are no whole rows, or too many, are what check 2 says of the formula part.
pub fn admit_into(book: &[u8], sizes: &mut [u8]) -> Result<(), Refusal>
    requires { length sizes.old ≡ 1024 }
    ensures { (run_meant result ≡ book_admission book.now) × (sizes.new ≡ size_column book.now sizes.old) }
{
    single(Check::Part, 0, is_misshapen(book))?;
    check_rows(book, sizes)?;
    check_repeats(book)
}

// The same for a caller that asks no sizes.
pub fn admit(book: &[u8]) -> Result<(), Refusal>
    ensures { run_meant result ≡ book_admission book.now }
{
    let mut sizes = [0u8; 1024];
    admit_into(book, &mut sizes)
}
