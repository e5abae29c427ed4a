// Is one formula another with a term put in for the variable of a for-all? The two walks call each other, the row number of the body falling.
ghost use Rattle.std.specs.Prelude.{◌≡◌, eqb};
ghost use Rattle.std.specs.List.{list_all};
ghost use Rattle.definition.specs.13-Formulas.{is_policy, is_action, put, put_term, same};
ghost use Rattle.definition.specs.14-Book.{tree_in, book as trees};
ghost use Rattle.formula_walks.specs.WalkRows.{WalkRow};
ghost use Rattle.formula_walks.specs.CommonNode.{common_node};
ghost use Rattle.formula_rows.specs.Meanings.{sort_meant, row_meant, node_meant};

use formula_rows::{Node, Row, Sort, Term, row_at};

// The term `x`, which stands under `depth` for-alls, with `term` put in for the variable of the sort.
pub fn put_term(sort: Sort, term: u16, depth: usize, x: u16) -> u16
    ensures { result ≡ put_term (sort_meant sort) term depth x }
{
    if Term::from(x).is_bound(sort, depth) {
        term
    } else {
        x
    }
}

// Is the first of each pair the second, with `term` put in? An absent term stays absent.
fn terms_match(sort: Sort, term: u16, depth: usize, pairs: &[(u16, u16)]) -> bool
    ensures { result ≡ list_all (λ p. eqb p.0 (put_term (sort_meant sort) term depth p.1)) pairs.now }
{
    pairs
        .iter()
        .all(|(is, x)| *is == put_term(sort, term, depth, *x))
}

// The node of the body's row, if the other row has its kind and code.
fn common_node(body: Row, row: Row) -> Node
    ensures { node_meant result ≡ common_node (row_meant body) (row_meant row) }
{
    if body.kind == row.kind && body.code == row.code {
        Node::from(body)
    } else {
        Node::None
    }
}

// Is policy `row` the policy `body`, which stands under `depth` for-alls, with `term` put in for the variable of the sort? The last policies of two nodes are walked by the same loop.
#[cycle(action_instance_policy_instance)]
pub fn policy_instance(
    book: &[u8],
    sort: Sort,
    term: u16,
    depth: usize,
    body: usize,
    row: usize,
) -> bool
    requires walk_row { WalkRow is_policy book.now body depth }
    requires walk_row_2 { WalkRow is_policy book.now row depth }
    ensures { result ≡ same (tree_in (trees book.now) row) (put (sort_meant sort) term depth (tree_in (trees book.now) body)) }
{
    let mut from = body;
    let mut to = row;
    let mut under = depth;
    loop {
        let other = row_at(book, to);
        match common_node(row_at(book, from), other) {
            Node::Leaf(x, y, z) => {
                return terms_match(
                    sort,
                    term,
                    under,
                    &[(other.x, x), (other.z, z), (other.y, y)],
                );
            }
            Node::Said(x, y, z) => {
                if !terms_match(sort, term, under, &[(other.x, x), (other.z, z)]) {
                    return false;
                }
                from = y as usize;
                to = other.y as usize;
            }
            Node::Pair(x, y) => {
                if !policy_instance(book, sort, term, under, x as usize, other.x as usize) {
                    return false;
                }
                from = y as usize;
                to = other.y as usize;
            }
            Node::Body(x) => {
                under += 1;
                from = x as usize;
                to = other.x as usize;
            }
            Node::Duty(x, y) => {
                if !action_instance(book, sort, term, under, x as usize, other.x as usize) {
                    return false;
                }
                from = y as usize;
                to = other.y as usize;
            }
            Node::None => return false,
        }
    }
}

// The same of an action.
#[cycle(action_instance_policy_instance)]
pub fn action_instance(
    book: &[u8],
    sort: Sort,
    term: u16,
    depth: usize,
    body: usize,
    row: usize,
) -> bool
    requires walk_row { WalkRow is_action book.now body depth }
    requires walk_row_2 { WalkRow is_action book.now row depth }
    ensures { result ≡ same (tree_in (trees book.now) row) (put (sort_meant sort) term depth (tree_in (trees book.now) body)) }
{
    let other = row_at(book, row);
    match common_node(row_at(book, body), other) {
        Node::Leaf(x, y, z) => {
            terms_match(
                sort,
                term,
                depth,
                &[(other.x, x), (other.z, z), (other.y, y)],
            )
        }
        Node::Said(x, y, z) => {
            terms_match(sort, term, depth, &[(other.x, x), (other.z, z)])
                && policy_instance(book, sort, term, depth, y as usize, other.y as usize)
        }
        _ => false,
    }
}
