// Check 12: the rule, the formula, the span of the premises, and what the rule says of premises and argument.
ghost use Rattle.std.specs.Prelude.{◌≡◌, not, ◌&&◌, ◌<◌, eqb};
ghost use Rattle.definition.specs.01-Words.{absent};
ghost use Rattle.definition.specs.11-Layout.{step_part, premise_part, count};
ghost use Rattle.definition.specs.15-Records.{bad_span, span_due, step_from, step_count};
ghost use Rattle.definition.specs.17-Case.{case_of};
ghost use Rattle.definition.specs.18-Admission.{Parted};
ghost use Rattle.definition.specs.22-Steps.{misshapen as is_misshapen, must_be_absent, rule_of};
ghost use Rattle.case_parts.specs.Records.{StepFields};
ghost use Rattle.step_shape.specs.Meanings.{shape_meant, names_meant};
ghost use Rattle.step_shape.specs.RuleLines.{shape_of};
ghost use Rattle.step_shape.specs.RuleFit.{unlike_rule};

use crate::rule_lines::{Names, Shape};
use case_file::{Case, closed_policy};
use case_parts::{PREMISES, STEPS, Step, bad_span, count_of, step_at};
use formula_rows::Term;

// Where the premises of step `k` are due to begin: behind those of the step before.
fn premises_due(file: &[u8], k: usize) -> usize
    requires { Parted file.now × (k < count file.now step_part) }
    ensures { result ≡ span_due (step_from file.now) (step_count file.now) k }
{
    if k == 0 {
        0
    } else {
        let before = step_at(file, k - 1);
        before.from as usize + before.len as usize
    }
}

// Is the span of step `k`'s premises at fault?
fn bad_premise_span(file: &[u8], k: usize, from: u16, len: u16) -> bool
    requires parted { Parted file.now × (k < count file.now step_part) }
    requires from_value { (from ≡ step_from file.now k) × (len ≡ step_count file.now k) }
    ensures { result ≡ bad_span (step_from file.now) (step_count file.now) (count file.now step_part) (count file.now premise_part) k }
{
    let due = premises_due(file, k);
    let last = k + 1 == count_of(file, STEPS);
    bad_span(
        due,
        from as usize,
        len as usize,
        last,
        count_of(file, PREMISES),
    )
}

// Is an argument given where the rule takes none?
fn needless_argument(names: Names, argument: u16) -> bool
    ensures { result ≡ (must_be_absent (names_meant names) && not (eqb argument absent)) }
{
    names == Names::Nothing && argument != Term::ABSENT
}

// Is the number of premises or the argument another than the rule's line has?
fn unlike_rule(shape: Shape, len: u16, argument: u16) -> bool
    ensures { result ≡ unlike_rule (shape_meant shape) len argument }
{
    len < shape.least || shape.most < len || needless_argument(shape.names, argument)
}

// Check 12 of step `k`.
pub fn misshapen(case: &Case, k: usize, step: Step, shape: Shape) -> bool
    requires k_bound { k < count case.now.file.now step_part }
    requires step_fields { StepFields case.now.file.now k step × (shape_meant shape ≡ shape_of (rule_of (case_of case.now.file.now) k)) }
    ensures { result ≡ is_misshapen (case_of case.now.file.now) k }
{
    15 < step.rule
        || !closed_policy(case.book, step.formula)
        || bad_premise_span(case.file, k, step.from, step.len)
        || unlike_rule(shape, step.len, step.argument)
}
