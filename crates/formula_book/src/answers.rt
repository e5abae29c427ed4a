// What callers ask of a formula of an admitted book.
ghost use Rattle.std.specs.Prelude.{◌≡◌, true, ◌≤◌, length};
ghost use Rattle.definition.specs.13-Formulas.{is_policy, same, put, has, data_of, closed, is_ground, nodes};
ghost use Rattle.definition.specs.14-Book.{tree_in, book as trees};
ghost use Rattle.formula_rows.specs.Meanings.{sort_meant, sought_meant};
ghost use Rattle.formula_walks.specs.DataWalk.{DataListed};
ghost use Rattle.formula_walks.specs.WalkRows.{Present};
ghost use Rattle.formula_book.specs.DataAnswers.{by_stray, stray_or};
ghost use Rattle.formula_book.specs.GoodRows.{GoodRow};
ghost use Rattle.formula_book.specs.Sizes.{SizeHeld};
ghost use Rattle.words.specs.Meanings.{run_meant};

use formula_rows::{Sort, Sought, row_at};
use formula_walks::{action_has, policy_data, policy_has, policy_instance};
use words::{Check, Refusal};

// Does what is looked for stand in formula `row`?
pub fn formula_has(book: &[u8], w: Sought, row: usize) -> bool
    requires good_row { GoodRow book.now row }
    requires present { Present (sought_meant w) }
    ensures { result ≡ has (sought_meant w) 0 (tree_in (trees book.now) row) }
{
    if row_at(book, row).is_policy() {
        policy_has(book, w, 0, row)
    } else {
        action_has(book, w, 0, row)
    }
}

// Has formula `row` no free variable?
pub fn is_closed(book: &[u8], row: usize) -> bool
    requires { GoodRow book.now row }
    ensures { result ≡ closed (tree_in (trees book.now) row) }
{
    !formula_has(book, Sought::FreeVariable, row)
}

// Has formula `row` no free variable and no parameter?
pub fn is_ground(book: &[u8], row: usize) -> bool
    requires { GoodRow book.now row }
    ensures { result ≡ is_ground (tree_in (trees book.now) row) }
{
    is_closed(book, row) && !formula_has(book, Sought::Parameter, row)
}

// The data objects and data parameters of policy `row`, ascending without repeats, in the first entries of `set`, data variable or not. The entries behind them stay as they were.
pub fn data_of(book: &[u8], row: usize, set: &mut [u16; 192]) -> Result<usize, Refusal>
    requires good_row { GoodRow book.now row × (is_policy (tree_in (trees book.now) row) ≡ true) }
    requires set_len { length set.old ≡ 192 }
    ensures { (run_meant result ≡ by_stray (stray_or book.now row (length (data_of (tree_in (trees book.now) row))))) × DataListed (tree_in (trees book.now) row) set.old set.new }
{
    let all = policy_data(book, row, set, 0, None);
    match all.low {
        Some(stray) => Err(Refusal {
            check: Check::DataVariable,
            place: stray as u16,
        }),
        None => Ok(all.many),
    }
}

// The nodes of formula `row`, as the column has them. The book is there for the contract alone.
pub fn size_of(book: &[u8], sizes: &[u8], row: usize) -> usize
    requires { SizeHeld book.now sizes.now row }
    ensures { (result ≡ nodes (tree_in (trees book.now) row)) × (result ≤ 64) }
{
    sizes[row] as usize
}

// Is formula `row` the policy `body` with the term put in for the variable of a for-all over the sort?
pub fn is_body_with(book: &[u8], sort: Sort, term: u16, body: usize, row: usize) -> bool
    requires good_row { GoodRow book.now body × (is_policy (tree_in (trees book.now) body) ≡ true) }
    requires good_row_2 { GoodRow book.now row }
    ensures { result ≡ same (tree_in (trees book.now) row) (put (sort_meant sort) term 0 (tree_in (trees book.now) body)) }
{
    row_at(book, row).is_policy() && policy_instance(book, sort, term, 0, body, row)
}
