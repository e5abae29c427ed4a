// Policies that an action gives rise to, each by the row that it would have in the book: what the agent may conclude from an action, and what an action owes.
ghost use Rattle.std.specs.Prelude.{◌≡◌, cond, List, ℕ, eqb};
ghost use Rattle.std.proofs.Math.Option.{none, some};
ghost use Rattle.definition.specs.13-Formulas.{Formula};
ghost use Rattle.definition.specs.14-Book.{tree_in, book as trees};
ghost use Rattle.definition.specs.21-Rules.{conclusion, owed, is_that};
ghost use Rattle.case_file.specs.LentCase.{Numbered};
ghost use Rattle.rules.specs.Policies.{policy_meant, StandsFor, Told, PolicyIs};

use crate::comparisons::{is_row, owns, row_of, says};
use formula_rows::{Kind, Row};

// The policy of the row, if `who` is the agent.
fn of_agent(agent: u16, who: u16, row: Row) -> Option<Row>
    ensures { (b : List ℕ) (f : Formula) → StandsFor b row f → PolicyIs b result (cond (eqb who agent) (some f) none) }
{
    (who == agent).then_some(row)
}

// What the agent may conclude from an action that it sees: "communicate X, Y, Z gives Z "X says Y to Z", creates gives X "X owns Y"; others give nothing".
pub fn conclusion_of(book: &[u8], agent: u16, action: usize) -> Option<Row>
    requires { Numbered book.now action }
    ensures { PolicyIs book.now result (conclusion agent (tree_in (trees book.now) action)) }
{
    let row = row_of(book, action);
    if row.is(Kind::Communicates) {
        of_agent(agent, row.z, says(row.x, row.y, row.z))
    } else if row.is(Kind::Creates) {
        of_agent(agent, row.x, owns(row.x, row.y))
    } else {
        None
    }
}

// What an action owes: "communicate by the agent owes "X says Y to Z"; a user action whose X is the agent owes the predicate of the same code and terms; all else owes nothing". Apart from `conclusion_of`, with which it shares the shape of a case alone.
pub fn owed_by(book: &[u8], agent: u16, action: usize) -> Option<Row>
    requires { Numbered book.now action }
    ensures { PolicyIs book.now result (owed agent (tree_in (trees book.now) action)) }
{
    let row = row_of(book, action);
    if row.is(Kind::Communicates) {
        of_agent(agent, row.x, says(row.x, row.y, row.z))
    } else if row.is(Kind::UserAction) {
        let kind = Kind::Predicate as u8;
        of_agent(agent, row.x, Row { kind, ..row })
    } else {
        None
    }
}

// Is there a policy, and is it formula `f`?
pub fn is_that(book: &[u8], f: usize, policy: Option<Row>) -> bool
    requires numbered { Numbered book.now f }
    requires told { Told book.now policy }
    ensures { result ≡ is_that (tree_in (trees book.now) f) (policy_meant (trees book.now) policy) }
{
    policy.is_some_and(|row| is_row(book, f, row))
}
