// Does what is looked for stand in a formula? A policy holds an action, and a communicated action holds a policy: the two walks call each other, the row number falling.
ghost use Rattle.std.specs.Prelude.{◌≡◌};
ghost use Rattle.std.specs.List.{list_any};
ghost use Rattle.definition.specs.13-Formulas.{is_policy, is_action, is_sought, has};
ghost use Rattle.definition.specs.14-Book.{tree_in, book as trees};
ghost use Rattle.formula_walks.specs.WalkRows.{WalkRow, Present};
ghost use Rattle.formula_rows.specs.Meanings.{sought_meant};

use formula_rows::{Kind, Node, Sought, is_sought, row_at};

// One of the terms.
fn terms_have(w: Sought, depth: usize, terms: &[u16]) -> bool
    ensures { result ≡ list_any (is_sought (sought_meant w) depth) terms.now }
{
    terms.iter().any(|x| is_sought(w, depth, *x))
}

// Policy `row`, which stands under `depth` for-alls. A node's last policy is walked by the same loop, so that formulas deep on that side take no calls.
#[cycle(action_has_policy_has)]
pub fn policy_has(book: &[u8], w: Sought, depth: usize, row: usize) -> bool
    requires walk_row { WalkRow is_policy book.now row depth }
    requires present { Present (sought_meant w) }
    ensures { result ≡ has (sought_meant w) depth (tree_in (trees book.now) row) }
{
    let mut at = row;
    let mut under = depth;
    loop {
        match Node::from(row_at(book, at)) {
            Node::Leaf(x, y, z) => return terms_have(w, under, &[x, y, z]),
            Node::Said(x, y, z) => {
                if terms_have(w, under, &[x, z]) {
                    return true;
                }
                at = y as usize;
            }
            Node::Pair(x, y) => {
                if policy_has(book, w, under, x as usize) {
                    return true;
                }
                at = y as usize;
            }
            Node::Body(x) => {
                under += 1;
                at = x as usize;
            }
            Node::Duty(x, y) => {
                if action_has(book, w, under, x as usize) {
                    return true;
                }
                at = y as usize;
            }
            Node::None => return false,
        }
    }
}

// Action `row`, which stands under `depth` for-alls: a communication holds a policy, and any other action has terms alone.
// It is one function with the policy walk in the program: a call less at each level of a formula nested through actions.
#[cycle(action_has_policy_has)]
#[inline(always)]
pub fn action_has(book: &[u8], w: Sought, depth: usize, row: usize) -> bool
    requires walk_row { WalkRow is_action book.now row depth }
    requires present { Present (sought_meant w) }
    ensures { result ≡ has (sought_meant w) depth (tree_in (trees book.now) row) }
{
    let own = row_at(book, row);
    if own.is(Kind::Communicates) {
        terms_have(w, depth, &[own.x, own.z]) || policy_has(book, w, depth, own.y as usize)
    } else {
        terms_have(w, depth, &[own.x, own.y, own.z])
    }
}
