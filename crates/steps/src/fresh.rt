// Check 19: the parameter of rule 14 stands neither in its formula nor in a label that its premise leaves open.
ghost use Rattle.std.specs.Prelude.{◌≡◌, ◌&&◌, ◌||◌, ◌<◌, eqb};
ghost use Rattle.definition.specs.01-Words.{absent};
ghost use Rattle.definition.specs.13-Formulas.{this_term, has};
ghost use Rattle.definition.specs.14-Book.{tree_in};
ghost use Rattle.definition.specs.11-Layout.{label_part, count};
ghost use Rattle.definition.specs.15-Records.{formulas, step_rule, step_formula, step_argument, label_formula};
ghost use Rattle.definition.specs.17-Case.{case_of};
ghost use Rattle.tables.specs.Sets.{labels_of};
ghost use Rattle.case_parts.specs.Records.{StepFields};
ghost use Rattle.case_parts.specs.ShapedSteps.{ShapedStep};
ghost use Rattle.steps.specs.OpenLabels.{in_open_labels};

use case_file::Case;
use case_parts::{LABELS, Rule, Step, count_of, label_at};
use formula_book::formula_has;
use formula_rows::Sought;
use tables::OpenSet;

// Is label `l` in the set, and does the term stand in its formula? The formula of a label that is not open is not walked.
fn in_open_label(case: &Case, term: u16, above: OpenSet, l: usize) -> bool
    requires present { term ≡ absent → ⊥ }
    requires l_bound { l < count case.now.file.now label_part }
    ensures { result ≡ (labels_of above.bits l && has (this_term term) 0 (tree_in (formulas case.now.file.now) (label_formula case.now.file.now l))) }
{
    above.has(l as u32)
        && formula_has(
            case.book,
            Sought::Term(term),
            label_at(case.file, l).formula as usize,
        )
}

// Does the term stand in the formula of a label of the set?
fn in_open_labels(case: &Case, term: u16, above: OpenSet) -> bool
    requires { term ≡ absent → ⊥ }
    ensures { result ≡ in_open_labels (case_of case.now.file.now) term (labels_of above.bits) }
{
    (0..count_of(case.file, LABELS)).any(|l| in_open_label(case, term, above, l))
}

// Check 19 of step `k`. `above` are the labels that its premises leave open together.
pub fn not_fresh(case: &Case, k: usize, step: Step, above: OpenSet) -> bool
    requires { ShapedStep case.now.file.now k × StepFields case.now.file.now k step }
    ensures { result ≡ (eqb (step_rule case.now.file.now k) 14 && (has (this_term (step_argument case.now.file.now k)) 0 (tree_in (formulas case.now.file.now) (step_formula case.now.file.now k)) || in_open_labels (case_of case.now.file.now) (step_argument case.now.file.now k) (labels_of above.bits))) }
{
    step.is(Rule::ForAllIntro)
        && (formula_has(
            case.book,
            Sought::Term(step.argument),
            step.formula as usize,
        ) || in_open_labels(case, step.argument, above))
}
