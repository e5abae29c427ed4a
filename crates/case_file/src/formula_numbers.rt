// What the number of a formula names. Any number is answered: one beyond the book names none.
ghost use Rattle.std.specs.Prelude.{◌≡◌, ◌<◌, ◌&&◌, ℕ, Bool, ltb};
ghost use Rattle.definition.specs.13-Formulas.{is_policy, is_action, is_predicate, closed, is_ground};
ghost use Rattle.definition.specs.14-Book.{tree_in, book_rows, row_at, book as trees};
ghost use Rattle.formula_book.specs.AdmittedBooks.{AdmittedBook};
ghost use Rattle.definition.specs.15-Records.{is_ground_action};

use formula_book::{is_closed, is_ground};
use formula_rows::{Kind, Row, row_at};

// Does the number name a formula of the book whose row has such a kind, and that passes the test?
fn names<K: Fn(Row) -> bool, T: Fn(usize) -> bool>(book: &[u8], n: u16, kind: K, test: T) -> bool
    requires admitted { AdmittedBook book.now }
    requires kinds { K.IsAlwaysCallable kind }
    requires rows { (k : ℕ) → k < book_rows book.now → T.pre test k }
    ensures { (is also : ℕ → Bool) → ((row : _) (b : Bool) → K.post kind row b → b ≡ is row.kind) → ((k : ℕ) (b : Bool) → k < book_rows book.now → T.post test k b → b ≡ also k) → result ≡ (ltb n (book_rows book.now) && is (row_at book.now n).kind && also n) }
{
    let at = n as usize;
    at < book.len() / 8 && kind(row_at(book, at)) && test(at)
}

pub fn ground_action(book: &[u8], n: u16) -> bool
    requires { AdmittedBook book.now }
    ensures { result ≡ is_ground_action (tree_in (trees book.now) n) }
{
    names(book, n, |row| !row.is_policy(), |at| is_ground(book, at))
}

pub fn ground_predicate(book: &[u8], n: u16) -> bool
    requires { AdmittedBook book.now }
    ensures { result ≡ (is_predicate (tree_in (trees book.now) n) && is_ground (tree_in (trees book.now) n)) }
{
    names(
        book,
        n,
        |row| row.is(Kind::Predicate),
        |at| is_ground(book, at),
    )
}

pub fn closed_policy(book: &[u8], n: u16) -> bool
    requires { AdmittedBook book.now }
    ensures { result ≡ (is_policy (tree_in (trees book.now) n) && closed (tree_in (trees book.now) n)) }
{
    names(book, n, |row| row.is_policy(), |at| is_closed(book, at))
}

pub fn closed_action(book: &[u8], n: u16) -> bool
    requires { AdmittedBook book.now }
    ensures { result ≡ (is_action (tree_in (trees book.now) n) && closed (tree_in (trees book.now) n)) }
{
    names(book, n, |row| !row.is_policy(), |at| is_closed(book, at))
}
