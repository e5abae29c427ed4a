// Whether a step fits its rule: checks 27, 24, 25, 26 and 18. The rule's own test comes first; only where it fails is it asked why. Rule 5's test also makes check 27.
ghost use Rattle.std.specs.Prelude.{◌≡◌, true, ◌<◌, ◌+◌};
ghost use Rattle.definition.specs.04-Checks.{in_order};
ghost use Rattle.definition.specs.13-Formulas.{Formula, kind_of};
ghost use Rattle.definition.specs.17-Case.{case_of};
ghost use Rattle.definition.specs.21-Rules.{rule_at, has_kind, has_party, any_faulty};
ghost use Rattle.definition.specs.22-Steps.{wrong_instance, misfit, misfit_checks, fit_checks};
ghost use Rattle.words.specs.Meanings.{run_meant};
ghost use Rattle.case_file.specs.LentCase.{Numbered};
ghost use Rattle.case_parts.specs.Named.{rule_number};
ghost use Rattle.case_parts.specs.Records.{StepFields};
ghost use Rattle.case_parts.specs.ShapedSteps.{ShapedStep};
ghost use Rattle.rules.specs.Misfits.{asked_meant, regard_meant, RowTells, fit_run};
ghost use Rattle.rules.specs.PremiseFormulas.{PremiseThere, PremisesThere, formula_at, premise_trees};

use crate::comparisons::row_of;
use crate::sixteen::{
    admits_parameter, admits_term, condition_row, from_premises, owner, premise_formula, seen_row,
    suppose,
};
use case_file::Case;
use case_parts::{Rule, Step};
use formula_rows::{Kind, Row};
use words::{Check, Refusal, single};

// What a rule asks of a premise: its kind, and for `SaysToAgent`, `AgentSays` and `AgentOwns` also that the agent is the target, the source or the owner.
#[derive(Clone, Copy, Debug, PartialEq, Eq)]
pub enum Asked {
    Anything,
    SaysToAgent,
    AgentSays,
    AgentOwns,
    And,
    ForAll,
    Implies,
    Duty,
}

// What a premise is looked at for: its kind, or whether this agent is the party asked.
#[derive(Clone, Copy, Debug, PartialEq, Eq)]
pub enum Regard {
    Kind,
    Party(u16),
}

// What is asked of the first premise.
fn asked_first(rule: Rule) -> Asked
    ensures { asked_meant result ≡ (rule_at (rule_number rule)).asks 0 }
{
    match rule {
        Rule::Say => Asked::SaysToAgent,
        Rule::Refine | Rule::ImpliesElim => Asked::Implies,
        Rule::Owner => Asked::AgentOwns,
        Rule::AndLeft | Rule::AndRight => Asked::And,
        Rule::DutyByObligation | Rule::DutyByLabel => Asked::Duty,
        Rule::ForAllElim => Asked::ForAll,
        _ => Asked::Anything,
    }
}

// What is asked of premise `i`, from 0.
fn asked_of(rule: Rule, i: usize) -> Asked
    ensures { asked_meant result ≡ (rule_at (rule_number rule)).asks i }
{
    if i == 0 {
        return asked_first(rule);
    }
    match rule {
        Rule::Owner => Asked::AgentOwns,
        Rule::Refine => {
            if i == 1 {
                Asked::AgentSays
            } else {
                Asked::Anything
            }
        }
        _ => Asked::Anything,
    }
}

// Is the row of the kind asked?
fn has_kind(asked: Asked, row: Row) -> bool
    ensures { (f : Formula) → row.kind ≡ kind_of f → result ≡ has_kind (asked_meant asked) f }
{
    match asked {
        Asked::Anything => true,
        Asked::SaysToAgent | Asked::AgentSays => row.is(Kind::Says),
        Asked::AgentOwns => row.is(Kind::Owns),
        Asked::And => row.is(Kind::And),
        Asked::ForAll => row.is(Kind::ForAll),
        Asked::Implies => row.is(Kind::Implies),
        Asked::Duty => row.is(Kind::EachUse) || row.is(Kind::Once),
    }
}

// Is the agent the party asked, in a row of the kind asked?
fn has_party(asked: Asked, agent: u16, row: Row) -> bool
    ensures { (f : Formula) → RowTells row f → has_kind (asked_meant asked) f ≡ true → result ≡ has_party agent (asked_meant asked) f }
{
    match asked {
        Asked::SaysToAgent => row.z == agent,
        Asked::AgentSays => row.x == agent,
        Asked::AgentOwns => row.x == agent,
        _ => true,
    }
}

// Has the row the fault that is looked for: another kind than asked, or that kind and another party?
fn lacks(regard: Regard, asked: Asked, row: Row) -> bool
    ensures { (f : Formula) → RowTells row f → result ≡ regard_meant regard (asked_meant asked) f }
{
    let alike = has_kind(asked, row);
    match regard {
        Regard::Kind => !alike,
        Regard::Party(agent) => alike && !has_party(asked, agent, row),
    }
}

// Has premise `i`, of those from entry `from` on, the fault that is looked for?
fn premise_lacks(case: &Case, regard: Regard, rule: Rule, from: usize, i: usize) -> bool
    requires premise { PremiseThere case.now.file.now (from + i) }
    ensures { result ≡ regard_meant regard ((rule_at (rule_number rule)).asks i) (formula_at case.now.file.now (from + i)) }
{
    let premise = premise_formula(case, from + i);
    let row = row_of(case.book, premise as usize);
    lacks(regard, asked_of(rule, i), row)
}

// Has one of the premises the fault that is looked for?
fn premises_lack(case: &Case, regard: Regard, rule: Rule, from: usize, len: usize) -> bool
    requires premises { PremisesThere case.now.file.now from len }
    ensures { result ≡ any_faulty (regard_meant regard) (rule_at (rule_number rule)).asks (premise_trees case.now.file.now from len) }
{
    (0..len).any(|i| premise_lacks(case, regard, rule, from, i))
}

// Check 26 of a step that does not fit: is the argument one that the rule admits? Then it is the instance that does not fit. Only rules 14 and 15 have an instance.
fn wrong_instance(case: &Case, k: usize, step: Step, rule: Rule) -> bool
    requires shaped_step { ShapedStep case.now.file.now k × StepFields case.now.file.now k step }
    requires rule_is { step.rule ≡ rule_number rule }
    requires k_value { misfit (case_of case.now.file.now) k ≡ true }
    ensures { result ≡ wrong_instance (case_of case.now.file.now) k }
{
    match rule {
        Rule::ForAllIntro => admits_parameter(case.book, step.formula, step.argument),
        Rule::ForAllElim => {
            let premise = premise_formula(case, step.from as usize);
            admits_term(case.book, premise, step.argument)
        }
        _ => false,
    }
}

// Why step `k` does not fit: the first of checks 24, 25, 26 and 18 that fails, with the step.
fn explained(case: &Case, k: usize, step: Step, rule: Rule) -> Result<(), Refusal>
    requires shaped_step { ShapedStep case.now.file.now k × StepFields case.now.file.now k step }
    requires rule_is { step.rule ≡ rule_number rule }
    requires k_value { misfit (case_of case.now.file.now) k ≡ true }
    ensures { run_meant result ≡ in_order (misfit_checks (case_of case.now.file.now) k) }
{
    let place = k as u16;
    let from = step.from as usize;
    let len = step.len as usize;
    let kind = premises_lack(case, Regard::Kind, rule, from, len);
    single(Check::PremiseKind, place, kind)?;
    let agent = case_parts::agent_of(case.file);
    let party = premises_lack(case, Regard::Party(agent), rule, from, len);
    single(Check::PremiseParty, place, party)?;
    single(Check::Instance, place, wrong_instance(case, k, step, rule))?;
    single(Check::Misfit, place, true)
}

// Check 27 of step `k`, and whether the step fits its rule.
fn fits(case: &Case, k: usize, step: Step, rule: Rule) -> Result<bool, Refusal>
    requires shaped_step { ShapedStep case.now.file.now k × StepFields case.now.file.now k step }
    requires rule_is { step.rule ≡ rule_number rule }
    requires numbered { Numbered case.now.book.now step.formula }
    ensures { run_meant result ≡ fit_run (case_of case.now.file.now) k }
{
    let f = step.formula;
    match rule {
        Rule::Suppose => Ok(suppose(case, f, step.argument)),
        Rule::ConditionRow => Ok(condition_row(case, f, step.argument)),
        Rule::SeenRow => Ok(seen_row(case, f, step.argument)),
        Rule::Owner => owner(case, f, step.from, step.len),
        _ => Ok(from_premises(case, k, step, rule)),
    }
}

// Checks 27, 24, 25, 26 and 18 of step `k`.
pub fn check_fit(case: &Case, k: usize, step: Step) -> Result<(), Refusal>
    requires shaped_step { ShapedStep case.now.file.now k × StepFields case.now.file.now k step }
    ensures { run_meant result ≡ in_order (fit_checks (case_of case.now.file.now) k) }
{
    let Ok(rule) = Rule::try_from(step.rule) else {
        unreachable!()
    };
    if fits(case, k, step, rule)? {
        return Ok(());
    }
    explained(case, k, step, rule)
}
