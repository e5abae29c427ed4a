// Check 28: the first premise of rule 4 rests on no evidence, and on no label.
ghost use Rattle.std.specs.Prelude.{◌≡◌, ◌+◌, ◌<◌};
ghost use Rattle.definition.specs.11-Layout.{premise_part, count};
ghost use Rattle.definition.specs.15-Records.{premise_step};
ghost use Rattle.definition.specs.17-Case.{case_of};
ghost use Rattle.definition.specs.18-Admission.{Parted};
ghost use Rattle.definition.specs.22-Steps.{no_tautology};
ghost use Rattle.case_parts.specs.Records.{StepFields};
ghost use Rattle.case_parts.specs.ShapedSteps.{ShapedStep};
ghost use Rattle.tables.specs.Sets.{rests_meant, rests_of};

use case_parts::{LABELS, Rule, Step, count_of, premise_step};
use tables::{Resting, rests_at};

// What premise `n` of those from `from` on rests on.
fn premise_rests(file: &[u8], from: usize, n: usize, left: &[u64; 2048]) -> Resting
    requires { Parted file.now × (from + n < count file.now premise_part) × (premise_step file.now (from + n) < 2048) }
    ensures { rests_meant result ≡ rests_of left.now (premise_step file.now (from + n)) }
{
    rests_at(left, premise_step(file, from + n) as usize)
}

// Check 28 of step `k`.
pub fn no_tautology(file: &[u8], k: usize, step: Step, left: &[u64; 2048]) -> bool
    requires parted { Parted file.now }
    requires shaped_step { ShapedStep file.now k × StepFields file.now k step }
    ensures { result ≡ no_tautology (case_of file.now) (rests_of left.now) k }
{
    step.is(Rule::Refine)
        && premise_rests(file, step.from as usize, 0, left).on_something(
            count_of(file, LABELS) as u32,
        )
}
