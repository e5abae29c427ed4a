// Numbers of a record that name one of a few: the rule of a step, and the mark of an obligation or a label.
ghost use Rattle.std.specs.Prelude.{◌≡◌, eqb};
ghost use Rattle.case_parts.specs.Named.{rule_number, RuleOf, mark_number};

use crate::records::{Label, Obligation, Step};

// The sixteen rules, by what they do.
#[derive(Clone, Copy, Debug, PartialEq, Eq)]
pub enum Rule {
    Suppose = 0,
    ConditionRow = 1,
    SeenRow = 2,
    Say = 3,
    Refine = 4,
    Owner = 5,
    AndIntro = 6,
    AndLeft = 7,
    AndRight = 8,
    ImpliesIntro = 9,
    ImpliesElim = 10,
    DutyIntro = 11,
    DutyByObligation = 12,
    DutyByLabel = 13,
    ForAllIntro = 14,
    ForAllElim = 15,
}

// A number that names no rule.
#[derive(Clone, Copy, Debug, PartialEq, Eq)]
pub struct UnknownRule(pub u16);

impl TryFrom<u16> for Rule {
    type Error = UnknownRule;

    ghost try_from_gives = { RuleOf };

    fn try_from(number: u16) -> Result<Rule, UnknownRule> {
        match number {
            0 => Ok(Rule::Suppose),
            1 => Ok(Rule::ConditionRow),
            2 => Ok(Rule::SeenRow),
            3 => Ok(Rule::Say),
            4 => Ok(Rule::Refine),
            5 => Ok(Rule::Owner),
            6 => Ok(Rule::AndIntro),
            7 => Ok(Rule::AndLeft),
            8 => Ok(Rule::AndRight),
            9 => Ok(Rule::ImpliesIntro),
            10 => Ok(Rule::ImpliesElim),
            11 => Ok(Rule::DutyIntro),
            12 => Ok(Rule::DutyByObligation),
            13 => Ok(Rule::DutyByLabel),
            14 => Ok(Rule::ForAllIntro),
            15 => Ok(Rule::ForAllElim),
            _ => Err(UnknownRule(number)),
        }
    }
}

// What a mark says: a policy, an action owed at each use, or one owed once.
#[derive(Clone, Copy, Debug, PartialEq, Eq)]
pub enum Mark {
    Policy = 0,
    EachUse = 1,
    Once = 2,
}

impl Step {
    // Is it of this rule?
    pub fn is(self, rule: Rule) -> bool
        ensures { result ≡ eqb self.rule (rule_number rule) }
    {
        self.rule == rule as u16
    }
}

impl Label {
    // Has it this mark?
    pub fn is(self, mark: Mark) -> bool
        ensures { result ≡ eqb self.mark (mark_number mark) }
    {
        self.mark == mark as u16
    }
}

impl Obligation {
    // Has it this mark?
    pub fn is(self, mark: Mark) -> bool
        ensures { result ≡ eqb self.mark (mark_number mark) }
    {
        self.mark == mark as u16
    }
}
