// A row as the walks see it: which of its fields are terms, and which are lower rows.
ghost use Rattle.std.specs.Prelude.{◌≡◌};
ghost use Rattle.formula_rows.specs.Nodes.{node_of};
ghost use Rattle.formula_rows.specs.Meanings.{row_meant, node_meant};

use crate::kinds::Kind;
use crate::rows::Row;

#[derive(Clone, Copy)]
pub enum Node {
    Leaf(u16, u16, u16),
    Said(u16, u16, u16),
    Pair(u16, u16),
    Body(u16),
    Duty(u16, u16),
    None,
}

impl From<Row> for Node {
    ghost from_gives = { λ row node. node_meant node ≡ node_of (row_meant row) };

    #[tactic(auto, using(crate::proofs::RowNodes::node_past), unfolding(crate::specs::Nodes::node_of, crate::specs::Nodes::node_table, crate::specs::Meanings::row_meant, crate::specs::Meanings::node_meant))]
    fn from(row: Row) -> Node {
        match Kind::try_from(row.kind) {
            Ok(Kind::Predicate | Kind::Owns | Kind::Creates | Kind::UserAction) => {
                Node::Leaf(row.x, row.y, row.z)
            }
            Ok(Kind::Says | Kind::Communicates) => Node::Said(row.x, row.y, row.z),
            Ok(Kind::And | Kind::Implies) => Node::Pair(row.x, row.y),
            Ok(Kind::ForAll) => Node::Body(row.x),
            Ok(Kind::EachUse | Kind::Once) => Node::Duty(row.x, row.y),
            Err(_) => Node::None,
        }
    }
}
