// The table of the sixteen rules: what the argument names, how many premises, what becomes of the open labels.
ghost use Rattle.std.specs.Prelude.{◌≡◌};
ghost use Rattle.definition.specs.21-Rules.{rule_at};
ghost use Rattle.case_parts.specs.Named.{rule_number};
ghost use Rattle.step_shape.specs.RuleLines.{rule_shape, shape_of};
ghost use Rattle.step_shape.specs.Meanings.{names_meant, effect_meant, shape_meant};

use case_parts::Rule;

#[derive(Clone, Copy, Debug, PartialEq, Eq)]
pub enum Names {
    Nothing,
    Label,
    Condition,
    Row,
    Obligation,
    Term,
}

#[derive(Clone, Copy, Debug, PartialEq, Eq)]
pub enum Effect {
    Keeps,
    Adds,
    Closes,
}

#[derive(Clone, Copy, Debug, PartialEq, Eq)]
pub struct Shape {
    pub names: Names,
    pub least: u16,
    pub most: u16,
    pub effect: Effect,
}

// A line of the table.
fn line(names: Names, least: u16, most: u16, effect: Effect) -> Shape
    ensures { shape_meant result ≡ rule_shape (names_meant names) least most (effect_meant effect) }
{
    Shape {
        names,
        least,
        most,
        effect,
    }
}

// The rule's line.
#[tactic(auto, unfolding(crate::proofs::RuleTable::rule_table))]
fn line_of(rule: Rule) -> Shape
    ensures { shape_meant result ≡ shape_of (rule_at (rule_number rule)) }
{
    match rule {
        Rule::Suppose => line(Names::Label, 0, 0, Effect::Adds),
        Rule::ConditionRow => line(Names::Condition, 0, 0, Effect::Keeps),
        Rule::SeenRow => line(Names::Row, 0, 0, Effect::Keeps),
        Rule::Say => line(Names::Nothing, 1, 1, Effect::Keeps),
        Rule::Refine => line(Names::Nothing, 2, 2, Effect::Keeps),
        Rule::Owner => line(Names::Nothing, 1, 16, Effect::Keeps),
        Rule::AndIntro => line(Names::Nothing, 2, 2, Effect::Keeps),
        Rule::AndLeft => line(Names::Nothing, 1, 1, Effect::Keeps),
        Rule::AndRight => line(Names::Nothing, 1, 1, Effect::Keeps),
        Rule::ImpliesIntro => line(Names::Label, 1, 1, Effect::Closes),
        Rule::ImpliesElim => line(Names::Nothing, 2, 2, Effect::Keeps),
        Rule::DutyIntro => line(Names::Label, 1, 1, Effect::Closes),
        Rule::DutyByObligation => line(Names::Obligation, 1, 1, Effect::Keeps),
        Rule::DutyByLabel => line(Names::Label, 1, 1, Effect::Adds),
        Rule::ForAllIntro => line(Names::Term, 1, 1, Effect::Keeps),
        Rule::ForAllElim => line(Names::Term, 1, 1, Effect::Keeps),
    }
}

// The line of a step's number. One that names no rule has a line that no step can use.
pub fn shape_of(rule: u16) -> Shape
    ensures { shape_meant result ≡ shape_of (rule_at rule) }
{
    match Rule::try_from(rule) {
        Ok(rule) => line_of(rule),
        Err(_) => line(Names::Nothing, 0, 0, Effect::Keeps),
    }
}
