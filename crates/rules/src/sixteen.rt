// The sixteen rules, a test each; that of rule 5 also tells a row. Formulas are given by their numbers: `f` is the step's own, `p` and `q` are its premises'.
ghost use Rattle.std.specs.Prelude.{◌≡◌, not, true, false, [], ◌∷◌, map, ℕ, ◌≤◌, ◌<◌, ◌+◌, length};
ghost use Rattle.definition.specs.13-Formulas.{owns, says, same, kind_of, is_policy, data_variable, has, data_of, first_part, target};
ghost use Rattle.definition.specs.14-Book.{sort_of_code, tree_in, book as trees};
ghost use Rattle.formula_walks.specs.DataLists.{front};
ghost use Rattle.formula_rows.specs.Meanings.{sort_meant};
ghost use Rattle.definition.specs.11-Layout.{condition_part, obligation_part, label_part, count};
ghost use Rattle.definition.specs.15-Records.{log_of, rows_in, step_formula, premise_step};
ghost use Rattle.definition.specs.17-Case.{Case as CaseRead, case_of};
ghost use Rattle.definition.specs.21-Rules as definition;
ghost use Rattle.definition.specs.22-Steps.{misfit};
ghost use Rattle.case_file.specs.LentCase.{Numbered};
ghost use Rattle.words.specs.Meanings.{run_meant};
ghost use Rattle.case_parts.specs.Named.{rule_number};
ghost use Rattle.case_parts.specs.Records.{StepFields};
ghost use Rattle.case_parts.specs.ShapedSteps.{ShapedStep};
ghost use Rattle.formula_book.specs.DataAnswers.{by_stray, stray_or};
ghost use Rattle.rules.specs.PremiseFormulas.{PremiseThere, PremisesThere, formula_at, premise_trees};

use crate::comparisons::{and, implies, is_after, is_row, owns, row_of, says};
use crate::policies::{conclusion_of, is_that};
use case_file::{Case, View};
use case_parts::{Mark, Rule, Step};
use formula_rows::{Kind, Sort, Term};
use words::Refusal;

// 0 "suppose label (mark 0)".
pub fn suppose(case: &Case, f: u16, label: u16) -> bool
    requires numbered { Numbered case.now.book.now f }
    requires label_bound { label < count case.now.file.now label_part }
    ensures { result ≡ definition.suppose (case_of case.now.file.now) (tree_in (trees case.now.book.now) f) label [] }
{
    let entry = case_parts::label_at(case.file, label as usize);
    entry.is(Mark::Policy) && f == entry.formula
}

// 1 "condition row". An absent condition is no formula's number.
pub fn condition_row(case: &Case, f: u16, condition: u16) -> bool
    requires numbered { Numbered case.now.book.now f }
    requires condition_bound { condition < count case.now.file.now condition_part }
    ensures { result ≡ definition.condition_row (case_of case.now.file.now) (tree_in (trees case.now.book.now) f) condition [] }
{
    f == case_parts::condition_formula(case.file, condition as usize)
}

// 2 "seen row: the row's conclusion for the agent". "Where a row has no conclusion for this agent, the step does not fit."
pub fn seen_row(case: &Case, f: u16, row: u16) -> bool
    requires numbered { Numbered case.now.book.now f }
    requires row_bound { row < rows_in (log_of case.now.file.now) }
    ensures { result ≡ definition.seen_row (case_of case.now.file.now) (tree_in (trees case.now.book.now) f) row [] }
{
    let View::Shows(action) = case_file::view_at(case.views, row as usize) else {
        return false;
    };
    let agent = case_parts::agent_of(case.file);
    let conclusion = conclusion_of(case.book, agent, action as usize);
    is_that(case.book, f as usize, conclusion)
}

// 3 "from "X says F to agent": F".
fn say(case: &Case, f: u16, p: u16) -> bool
    requires { Numbered case.now.book.now f × Numbered case.now.book.now p }
    ensures { (a : ℕ) → result ≡ definition.say (case_of case.now.file.now) (tree_in (trees case.now.book.now) f) a (tree_in (trees case.now.book.now) p ∷ []) }
{
    let premise = row_of(case.book, p as usize);
    let agent = case_parts::agent_of(case.file);
    premise.is(Kind::Says) && is_row(case.book, p as usize, says(premise.x, f, agent))
}

// 4 "refine: from F implies G and "agent says F to B": "agent says G to B"".
fn refine(case: &Case, f: u16, p: u16, q: u16) -> bool
    requires { Numbered case.now.book.now f × Numbered case.now.book.now p × Numbered case.now.book.now q }
    ensures { (a : ℕ) → result ≡ definition.refine (case_of case.now.file.now) (tree_in (trees case.now.book.now) f) a (tree_in (trees case.now.book.now) p ∷ tree_in (trees case.now.book.now) q ∷ []) }
{
    let premise = row_of(case.book, p as usize);
    let own = row_of(case.book, f as usize);
    let agent = case_parts::agent_of(case.file);
    premise.is(Kind::Implies)
        && is_row(case.book, q as usize, says(agent, premise.x, own.z))
        && is_row(case.book, f as usize, says(agent, premise.y, own.z))
}

// 7 "its left".
fn and_left(book: &[u8], f: u16, p: u16) -> bool
    requires { Numbered book.now f × Numbered book.now p }
    ensures { (c : CaseRead) (a : ℕ) → result ≡ definition.and_left c (tree_in (trees book.now) f) a (tree_in (trees book.now) p ∷ []) }
{
    let premise = row_of(book, p as usize);
    premise.is(Kind::And) && is_row(book, p as usize, and(f, premise.y))
}

// 8 "its right". Apart from 7: one function for both would need a closure that says which part is the step's own.
fn and_right(book: &[u8], f: u16, p: u16) -> bool
    requires { Numbered book.now f × Numbered book.now p }
    ensures { (c : CaseRead) (a : ℕ) → result ≡ definition.and_right c (tree_in (trees book.now) f) a (tree_in (trees book.now) p ∷ []) }
{
    let premise = row_of(book, p as usize);
    premise.is(Kind::And) && is_row(book, p as usize, and(premise.x, f))
}

// 9 "from G: F implies G, F the label's, closing the label".
fn implies_intro(case: &Case, f: u16, label: u16, p: u16) -> bool
    requires numbered { Numbered case.now.book.now f × Numbered case.now.book.now p }
    requires label_bound { label < count case.now.file.now label_part }
    ensures { result ≡ definition.implies_intro (case_of case.now.file.now) (tree_in (trees case.now.book.now) f) label (tree_in (trees case.now.book.now) p ∷ []) }
{
    let entry = case_parts::label_at(case.file, label as usize);
    entry.is(Mark::Policy) && is_row(case.book, f as usize, implies(entry.formula, p))
}

// 11 "from G: a kind 6 or 7 formula over the label's action and mark (6 with mark 1, 7 with mark 2), closing it". Rule 13 is this one with the step's own formula and the premise's exchanged.
fn duty_intro(case: &Case, f: u16, label: u16, p: u16) -> bool
    requires numbered { Numbered case.now.book.now f × Numbered case.now.book.now p }
    requires label_bound { label < count case.now.file.now label_part }
    ensures { result ≡ definition.duty_intro (case_of case.now.file.now) (tree_in (trees case.now.book.now) f) label (tree_in (trees case.now.book.now) p ∷ []) }
{
    let entry = case_parts::label_at(case.file, label as usize);
    is_after(case.book, f, entry.mark, entry.formula, p)
}

// 12 "from such a formula: its policy, by an obligation row of that mark and action".
fn duty_by_obligation(case: &Case, f: u16, obligation: u16, p: u16) -> bool
    requires numbered { Numbered case.now.book.now f × Numbered case.now.book.now p }
    requires obligation_bound { obligation < count case.now.file.now obligation_part }
    ensures { result ≡ definition.duty_by_obligation (case_of case.now.file.now) (tree_in (trees case.now.book.now) f) obligation (tree_in (trees case.now.book.now) p ∷ []) }
{
    let entry = case_parts::obligation_at(case.file, obligation as usize);
    is_after(case.book, p, entry.mark, entry.action, f)
}

// The sort that a for-all's code names.
fn sort_of(code: u8) -> Sort
    ensures { sort_meant result ≡ sort_of_code code }
{
    if code == 0 { Sort::Agents } else { Sort::Data }
}

// Is formula `g` a for-all, and the argument a parameter of its sort?
pub fn admits_parameter(book: &[u8], g: u16, argument: u16) -> bool
    requires { Numbered book.now g }
    ensures { result ≡ definition.admits_parameter argument (tree_in (trees book.now) g) }
{
    let row = row_of(book, g as usize);
    row.is(Kind::ForAll) && Term::from(argument).is_parameter(sort_of(row.code))
}

// Is formula `g` a for-all, and the argument an agent, data or parameter of its sort? Apart from `admits_parameter`: one function with the test as a closure would need a third definition for the definition's two.
pub fn admits_term(book: &[u8], g: u16, argument: u16) -> bool
    requires { Numbered book.now g }
    ensures { result ≡ definition.admits_term argument (tree_in (trees book.now) g) }
{
    let row = row_of(book, g as usize);
    row.is(Kind::ForAll) && formula_rows::is_instance(sort_of(row.code), argument)
}

// Is formula `f` the body of the for-all `g`, with the term put in?
fn is_body(book: &[u8], g: u16, term: u16, f: u16) -> bool
    requires numbered { Numbered book.now g × Numbered book.now f }
    requires g_value { kind_of (tree_in (trees book.now) g) ≡ 4 }
    ensures { result ≡ same (tree_in (trees book.now) f) (definition.body_with term (tree_in (trees book.now) g)) }
{
    let row = row_of(book, g as usize);
    let sort = sort_of(row.code);
    formula_book::is_body_with(book, sort, term, row.x as usize, f as usize)
}

// 14 "from the body with a parameter put in: for all; argument the parameter".
fn for_all_intro(book: &[u8], f: u16, parameter: u16, p: u16) -> bool
    requires { Numbered book.now f × Numbered book.now p }
    ensures { (c : CaseRead) → result ≡ definition.for_all_intro c (tree_in (trees book.now) f) parameter (tree_in (trees book.now) p ∷ []) }
{
    admits_parameter(book, f, parameter) && is_body(book, f, parameter, p)
}

// 15 "from for all: the body with the argument (agent, data or parameter of the sort)".
fn for_all_elim(book: &[u8], f: u16, term: u16, p: u16) -> bool
    requires { Numbered book.now f × Numbered book.now p }
    ensures { (c : CaseRead) → result ≡ definition.for_all_elim c (tree_in (trees book.now) f) term (tree_in (trees book.now) p ∷ []) }
{
    admits_term(book, p, term) && is_body(book, p, term, f)
}

// The formula of the step that premise entry `j` names.
pub fn premise_formula(case: &Case, j: usize) -> u16
    requires { PremiseThere case.now.file.now j }
    ensures is { result ≡ step_formula case.now.file.now (premise_step case.now.file.now j) }
    ensures numbered { Numbered case.now.book.now result }
{
    let premise = case_parts::premise_step(case.file, j);
    case_parts::step_at(case.file, premise as usize).formula
}

// Is formula `f` "agent says F to B"?
fn grants(book: &[u8], agent: u16, f: u16) -> bool
    requires { Numbered book.now f }
    ensures { result ≡ same (tree_in (trees book.now) f) (says agent (first_part (tree_in (trees book.now) f)) (target (tree_in (trees book.now) f))) }
{
    let own = row_of(book, f as usize);
    own.is(Kind::Says) && is_row(book, f as usize, says(agent, own.y, own.z))
}

// Is premise `i`, of those from entry `from` on, "agent owns D"?
fn owns_premise(case: &Case, agent: u16, d: u16, from: usize, i: usize) -> bool
    requires { PremiseThere case.now.file.now (from + i) }
    ensures { result ≡ same (formula_at case.now.file.now (from + i)) (owns agent d) }
{
    let premise = premise_formula(case, from + i);
    is_row(case.book, premise as usize, owns(agent, d))
}

// Are the premises in the span "agent owns D", D the first `len` entries of `set` in their order?
fn owns_each(case: &Case, agent: u16, set: &[u16; 192], from: usize, len: usize) -> bool
    requires premises { PremisesThere case.now.file.now from len }
    requires set_len { (length set.now ≡ 192) × (len ≤ 192) }
    ensures { result ≡ definition.same_all (premise_trees case.now.file.now from len) (map (owns agent) (front set.now len)) }
{
    (0..len).all(|i| owns_premise(case, agent, set[i], from, i))
}

// Rule 5 of a formula without data variable, whose data are the first `many` entries of `set`.
fn owned(case: &Case, f: u16, set: &[u16; 192], many: usize, from: usize, len: usize) -> bool
    requires premises { PremisesThere case.now.file.now from len }
    requires numbered { Numbered case.now.book.now f }
    requires set_len { (length set.now ≡ 192) × (many ≤ 192) × (front set.now many ≡ data_of (tree_in (trees case.now.book.now) f)) }
    requires f_value { has data_variable 0 (tree_in (trees case.now.book.now) f) ≡ false }
    ensures { (a : ℕ) → result ≡ definition.owner (case_of case.now.file.now) (tree_in (trees case.now.book.now) f) a (premise_trees case.now.file.now from len) }
{
    let agent = case_parts::agent_of(case.file);
    many == len && grants(case.book, agent, f) && owns_each(case, agent, set, from, len)
}

// 5 "owner: "agent says F to B" from 1 to 16 premises "agent owns D", D strictly ascending and exactly the data objects and data parameters in the formula, actions included; no data variable in it". Check 27 tells the lowest row that itself holds a data variable, where one stands in the formula.
pub fn owner(case: &Case, f: u16, from: u16, len: u16) -> Result<bool, Refusal>
    requires premises { PremisesThere case.now.file.now from len }
    requires numbered { Numbered case.now.book.now f × (is_policy (tree_in (trees case.now.book.now) f) ≡ true) }
    ensures { (a : ℕ) → run_meant result ≡ by_stray (stray_or case.now.book.now f (definition.owner (case_of case.now.file.now) (tree_in (trees case.now.book.now) f) a (premise_trees case.now.file.now from len))) }
{
    let mut set = [0u16; 192];
    let many = formula_book::data_of(case.book, f as usize, &mut set)?;
    Ok(owned(case, f, &set, many, from as usize, len as usize))
}

// The rules that have one premise or two, but for 5.
pub fn from_premises(case: &Case, k: usize, step: Step, rule: Rule) -> bool
    requires shaped_step { ShapedStep case.now.file.now k × StepFields case.now.file.now k step }
    requires rule_is { step.rule ≡ rule_number rule }
    requires rule_value { (2 < step.rule) × (step.rule ≡ 5 → ⊥) }
    requires numbered { Numbered case.now.book.now step.formula }
    ensures { result ≡ not (misfit (case_of case.now.file.now) k) }
{
    let f = step.formula;
    let argument = step.argument;
    let from = step.from as usize;
    let p = premise_formula(case, from);
    match rule {
        Rule::Say => say(case, f, p),
        Rule::Refine => refine(case, f, p, premise_formula(case, from + 1)),
        Rule::AndIntro => is_row(
            case.book,
            f as usize,
            and(p, premise_formula(case, from + 1)),
        ),
        Rule::AndLeft => and_left(case.book, f, p),
        Rule::AndRight => and_right(case.book, f, p),
        Rule::ImpliesIntro => implies_intro(case, f, argument, p),
        Rule::ImpliesElim => is_row(
            case.book,
            p as usize,
            implies(premise_formula(case, from + 1), f),
        ),
        Rule::DutyIntro => duty_intro(case, f, argument, p),
        Rule::DutyByObligation => duty_by_obligation(case, f, argument, p),
        Rule::DutyByLabel => duty_intro(case, p, argument, f),
        Rule::ForAllIntro => for_all_intro(case.book, f, argument, p),
        Rule::ForAllElim => for_all_elim(case.book, f, argument, p),
        Rule::Suppose | Rule::ConditionRow | Rule::SeenRow | Rule::Owner => unreachable!(),
    }
}
