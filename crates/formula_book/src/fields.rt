// Check 3, the fields: has a row the code, terms and children that its kind has? The rows below it are not bad.
ghost use Rattle.std.specs.Prelude.{◌≡◌, ◌&&◌, ltb};
ghost use Rattle.definition.specs.12-Terms.{other};
ghost use Rattle.definition.specs.14-Book.{terms_first, tree_in, sort_of_code, agent_and_data, agent_policy_agent, two_policies, sort_and_body, action_and_policy, fields_fit, book as trees};
ghost use Rattle.formula_book.specs.Children.{is_child};
ghost use Rattle.formula_book.specs.Sizes.{GoodBelow};
ghost use Rattle.formula_rows.specs.Meanings.{row_meant, sort_meant};

use formula_rows::{Kind, Row, Sort, Sought, Term, has_sort, is_term, row_at};
use formula_walks::policy_has;

// Are they terms, but for absent ones at the end?
fn terms_first(fields: &[u16]) -> bool
    ensures { result ≡ terms_first fields.now }
{
    // A loop with a mark, since a chain of adaptors takes twice the time on a book of predicates.
    let mut ended = false;
    for t in fields {
        if *t == Term::ABSENT {
            ended = true;
        } else if ended || !is_term(*t) {
            return false;
        }
    }
    true
}

// What a child has to be.
#[derive(Clone, Copy, Debug, PartialEq, Eq)]
enum Child {
    Policy,
    Action,
}

// Is `n` such a child, and below row `k`?
fn child_below(book: &[u8], k: usize, n: u16, child: Child) -> bool
    requires { GoodBelow book.now k }
    ensures { result ≡ (ltb n k && is_child child (tree_in (trees book.now) n)) }
{
    let lower = n as usize;
    match child {
        Child::Policy => lower < k && row_at(book, lower).is_policy(),
        Child::Action => lower < k && !row_at(book, lower).is_policy(),
    }
}

fn agent_and_data(row: Row) -> bool
    ensures { result ≡ agent_and_data (row_meant row) }
{
    row.code == 0
        && has_sort(Sort::Agents, row.x)
        && has_sort(Sort::Data, row.y)
        && row.z == Term::ABSENT
}

fn agent_policy_agent(book: &[u8], k: usize, row: Row) -> bool
    requires { GoodBelow book.now k }
    ensures { result ≡ agent_policy_agent (trees book.now) k (row_meant row) }
{
    row.code == 0
        && has_sort(Sort::Agents, row.x)
        && child_below(book, k, row.y, Child::Policy)
        && has_sort(Sort::Agents, row.z)
}

fn two_policies(book: &[u8], k: usize, row: Row) -> bool
    requires { GoodBelow book.now k }
    ensures { result ≡ two_policies (trees book.now) k (row_meant row) }
{
    row.code == 0
        && child_below(book, k, row.x, Child::Policy)
        && child_below(book, k, row.y, Child::Policy)
        && row.z == Term::ABSENT
}

fn action_and_policy(book: &[u8], k: usize, row: Row) -> bool
    requires { GoodBelow book.now k }
    ensures { result ≡ action_and_policy (trees book.now) k (row_meant row) }
{
    row.code == 0
        && child_below(book, k, row.x, Child::Action)
        && child_below(book, k, row.y, Child::Policy)
        && row.z == Term::ABSENT
}

// The sort that a for-all does not bind.
fn other_sort(code: u8) -> Sort
    ensures { sort_meant result ≡ other (sort_of_code code) }
{
    if code == 0 { Sort::Data } else { Sort::Agents }
}

fn sort_and_body(book: &[u8], k: usize, row: Row) -> bool
    requires { GoodBelow book.now k }
    ensures { result ≡ sort_and_body (trees book.now) k (row_meant row) }
{
    row.code <= 1
        && child_below(book, k, row.x, Child::Policy)
        && row.y == Term::ABSENT
        && row.z == Term::ABSENT
        && !policy_has(book, Sought::Bound(other_sort(row.code)), 0, row.x as usize)
}

// Are code and fields of row `k` those that its kind has?
pub fn fields_fit(book: &[u8], k: usize, row: Row) -> bool
    requires { GoodBelow book.now k }
    ensures { result ≡ fields_fit (trees book.now) k (row_meant row) }
{
    let Ok(kind) = Kind::try_from(row.kind) else {
        return false;
    };
    match kind {
        Kind::Predicate => terms_first(&[row.x, row.y, row.z]),
        Kind::Owns | Kind::Creates => agent_and_data(row),
        Kind::Says | Kind::Communicates => agent_policy_agent(book, k, row),
        Kind::And | Kind::Implies => two_policies(book, k, row),
        Kind::ForAll => sort_and_body(book, k, row),
        Kind::EachUse | Kind::Once => action_and_policy(book, k, row),
        Kind::UserAction => has_sort(Sort::Agents, row.x) && terms_first(&[row.y, row.z]),
    }
}
