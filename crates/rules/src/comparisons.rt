// Formulas of the book compared with others, each by the row that it would have: in an admitted book equal formulas have equal rows.
ghost use Rattle.std.specs.Prelude.{◌≡◌, ◌&&◌, List, ℕ};
ghost use Rattle.definition.specs.01-Words.{absent};
ghost use Rattle.definition.specs.13-Formulas.{Formula, same, says, owns, and, implies, after};
ghost use Rattle.definition.specs.14-Book.{row_at, tree_in, book as trees};
ghost use Rattle.definition.specs.15-Records.{is_duty};
ghost use Rattle.formula_rows.specs.Kinds.{kind_number};
ghost use Rattle.formula_rows.specs.Meanings.{row_meant};
ghost use Rattle.case_file.specs.LentCase.{Numbered};
ghost use Rattle.rules.specs.Policies.{StandsFor};

use case_parts::Mark;
use formula_rows::{Kind, Row, Term};

// The row of formula `f`.
pub fn row_of(book: &[u8], f: usize) -> Row
    requires { Numbered book.now f }
    ensures { row_meant result ≡ row_at book.now f }
{
    formula_rows::row_at(book, f)
}

// Is formula `f` the one that this row stands for?
pub fn is_row(book: &[u8], f: usize, row: Row) -> bool
    requires { Numbered book.now f }
    ensures { (g : Formula) → StandsFor book.now row g → result ≡ same (tree_in (trees book.now) f) g }
{
    row_of(book, f) == row
}

// A row of this kind, of two that it names.
fn of_two(kind: Kind, x: u16, y: u16) -> Row
    ensures { row_meant result ≡ record { kind = kind_number kind; code = 0; x = x; y = y; z = absent } }
{
    Row {
        kind: kind as u8,
        code: 0,
        x,
        y,
        z: Term::ABSENT,
    }
}

// "X owns Y".
pub fn owns(x: u16, y: u16) -> Row
    ensures { (b : List ℕ) → StandsFor b result (owns x y) }
{
    of_two(Kind::Owns, x, y)
}

// "X says policy Y to Z".
pub fn says(x: u16, y: u16, z: u16) -> Row
    ensures { (b : List ℕ) → Numbered b y → StandsFor b result (says x (tree_in (trees b) y) z) }
{
    Row {
        kind: Kind::Says as u8,
        code: 0,
        x,
        y,
        z,
    }
}

// "X and Y".
pub fn and(x: u16, y: u16) -> Row
    ensures { (b : List ℕ) → Numbered b x → Numbered b y → StandsFor b result (and (tree_in (trees b) x) (tree_in (trees b) y)) }
{
    of_two(Kind::And, x, y)
}

// "X implies Y".
pub fn implies(x: u16, y: u16) -> Row
    ensures { (b : List ℕ) → Numbered b x → Numbered b y → StandsFor b result (implies (tree_in (trees b) x) (tree_in (trees b) y)) }
{
    of_two(Kind::Implies, x, y)
}

// Is formula `f` the action X of a duty's mark, each use or once, and then the policy Y? "6 with mark 1, 7 with mark 2."
pub fn is_after(book: &[u8], f: u16, mark: u16, x: u16, y: u16) -> bool
    requires { Numbered book.now f × Numbered book.now x × Numbered book.now y }
    ensures { result ≡ (is_duty mark && same (tree_in (trees book.now) f) (after mark (tree_in (trees book.now) x) (tree_in (trees book.now) y))) }
{
    if mark == Mark::EachUse as u16 {
        is_row(book, f as usize, of_two(Kind::EachUse, x, y))
    } else if mark == Mark::Once as u16 {
        is_row(book, f as usize, of_two(Kind::Once, x, y))
    } else {
        false
    }
}
