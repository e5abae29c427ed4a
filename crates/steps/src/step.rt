// A step: its checks in order, and the tables after it.
ghost use Rattle.std.specs.Prelude.{◌≡◌, ◌||◌, ◌<◌, length};
ghost use Rattle.definition.specs.04-Checks.{in_order};
ghost use Rattle.definition.specs.11-Layout.{step_part, count};
ghost use Rattle.definition.specs.17-Case.{case_of};
ghost use Rattle.definition.specs.22-Steps.{State, rests_in, opens_in, is_evidence, joined, premises_of, leaves as leaves_of, rests_on, rule_of, above_checks, use_checks};
ghost use Rattle.words.specs.Meanings.{run_meant};
ghost use Rattle.case_parts.specs.Records.{StepFields};
ghost use Rattle.tables.specs.Sets.{labels_of, rests_meant, rests_of};
ghost use Rattle.case_parts.specs.ShapedSteps.{EarlierNumbered};
ghost use Rattle.step_shape.specs.Meanings.{names_meant, effect_meant, shape_meant};
ghost use Rattle.step_shape.specs.RuleLines.{shape_of};
ghost use Rattle.case_parts.specs.ShapedSteps.{ShapedStep};
ghost use Rattle.steps.specs.CitedEntries.{LabelThere, CitedThere, CitedMarked};
ghost use Rattle.steps.specs.OpenLabels.{each_use_labels, UsesIn};
ghost use Rattle.steps.specs.StepAnswers.{JudgedAs, Stepped};
ghost use Rattle.steps.specs.WorkingTables.{state_of};

use crate::fresh::not_fresh;
use crate::refining::no_tautology;
use crate::step_tables::StepTables;
use crate::uses::{Above, rests_above, used_twice};
use case_file::Case;
use case_parts::{Step, step_at};
use rules::check_fit;
use step_shape::{Effect, Names, Shape, check_citation, misshapen, shape_of, take_premises};
use tables::{OpenSet, Resting, set_rests};
use words::{Check, Refusal, single};

// The labels that a step leaves open, from those that its premises leave open.
fn leaves(effect: Effect, argument: u16, above: OpenSet) -> OpenSet
    requires { LabelThere (effect_meant effect) argument }
    ensures { labels_of result.bits ≡ leaves_of (effect_meant effect) argument (labels_of above.bits) }
{
    match effect {
        Effect::Keeps => above,
        Effect::Adds => above.add(argument as u32),
        Effect::Closes => above.close(argument as u32),
    }
}

// Does a step cite evidence, or does a step above it?
fn cites(names: Names, above: bool) -> bool
    ensures { result ≡ (is_evidence (names_meant names) || above) }
{
    matches!(names, Names::Condition | Names::Row | Names::Obligation) || above
}

// What a step rests on, from what its premises rest on together.
fn rests_on(names: Names, effect: Effect, argument: u16, above: Resting) -> Resting
    requires { LabelThere (effect_meant effect) argument }
    ensures { rests_meant result ≡ rests_on (names_meant names) (effect_meant effect) argument (rests_meant above) }
{
    Resting {
        opens: leaves(effect, argument, above.opens),
        cites: cites(names, above.cites),
    }
}

// Marks the row or the obligation that a step cites.
fn mark_cited(names: Names, argument: u16, cited: &mut [bool; 1024], discharged: &mut [bool; 64])
    requires { CitedThere (names_meant names) argument }
    ensures { CitedMarked (names_meant names) argument cited.old discharged.old cited.new discharged.new }
{
    match names {
        Names::Row => cited[argument as usize] = true,
        Names::Obligation => discharged[argument as usize] = true,
        _ => {}
    }
}

// What the premises of step `k` rest on: checks 19 and 28, in any state in which the steps rest on what the table has. `above` are the labels that its premises leave open together.
fn check_above(
    case: &Case,
    k: usize,
    step: Step,
    above: OpenSet,
    left: &[u64; 2048],
) -> Result<(), Refusal>
    requires shaped_step { ShapedStep case.now.file.now k × StepFields case.now.file.now k step }
    ensures { (s : State) → rests_in s ≡ rests_of left.now → labels_of above.bits ≡ joined (opens_in s) (premises_of (case_of case.now.file.now) k) → run_meant result ≡ in_order (above_checks (case_of case.now.file.now) k s) }
{
    let place = k as u16;
    single(Check::NotFresh, place, not_fresh(case, k, step, above))?;
    single(
        Check::NoTautology,
        place,
        no_tautology(case.file, k, step, left),
    )
}

// How step `k` uses what it names: check 17, whether it fits, checks 19 and 28, over what its premises rest on, in any state in which that is so.
fn check_uses(
    case: &Case,
    k: usize,
    step: Step,
    shape: Shape,
    above: Above,
    each_use: OpenSet,
    left: &[u64; 2048],
    discharged: &[bool; 64],
) -> Result<(), Refusal>
    requires shaped_step { ShapedStep case.now.file.now k × StepFields case.now.file.now k step }
    requires shape_value { (shape_meant shape ≡ shape_of (rule_of (case_of case.now.file.now) k)) × (labels_of each_use.bits ≡ each_use_labels case.now.file.now) }
    ensures { (s : State) → UsesIn (case_of case.now.file.now) k left.now discharged.now above s → run_meant result ≡ in_order (use_checks (case_of case.now.file.now) k s) }
{
    let twice = used_twice(case.file, shape, step.argument, above, each_use, discharged);
    single(Check::UsedTwice, k as u16, twice)?;
    check_fit(case, k, step)?;
    check_above(case, k, step, above.rests.opens, left)
}

// The checks of step `k`, and what its premises rest on together. Its premises are marked as used, up to the first that check 13 refuses.
fn check_step(
    case: &Case,
    each_use: OpenSet,
    k: usize,
    step: Step,
    shape: Shape,
    left: &mut [u64; 2048],
    discharged: &[bool; 64],
) -> Result<Resting, Refusal>
    requires each_use_value { labels_of each_use.bits ≡ each_use_labels case.now.file.now }
    requires k_bound { (k < count case.now.file.now step_part) × EarlierNumbered case.now.file.now k }
    requires step_fields { StepFields case.now.file.now k step × (shape_meant shape ≡ shape_of (rule_of (case_of case.now.file.now) k)) }
    ensures { JudgedAs case.now.file.now k left.old discharged.now result left.new }
{
    let place = k as u16;
    let from = step.from as usize;
    let len = step.len as usize;
    single(Check::Shape, place, misshapen(case, k, step, shape))?;
    single(
        Check::Premise,
        place,
        take_premises(case.file, k, from, len, left),
    )?;
    check_citation(case, shape.names, step.argument, place)?;
    let above = rests_above(case.file, from, len, left, each_use);
    check_uses(case, k, step, shape, above, each_use, left, discharged)?;
    Ok(above.rests)
}

// Step `k`: the first of its checks that fails, and the tables as they are after it.
pub fn take_step(
    case: &Case,
    each_use: OpenSet,
    k: usize,
    tables: &mut StepTables,
) -> Result<(), Refusal>
    requires each_use_value { labels_of each_use.bits ≡ each_use_labels case.now.file.now }
    requires k_bound { (k < count case.now.file.now step_part) × EarlierNumbered case.now.file.now k }
    ensures { Stepped case.now.file.now k (state_of tables.old.left tables.old.cited tables.old.discharged) result tables.new.left tables.new.cited tables.new.discharged }
{
    let step = step_at(case.file, k);
    let shape = shape_of(step.rule);
    let above = check_step(
        case,
        each_use,
        k,
        step,
        shape,
        &mut tables.left,
        &tables.discharged,
    )?;
    let rests = rests_on(shape.names, shape.effect, step.argument, above);
    set_rests(&mut tables.left, k, rests);
    mark_cited(
        shape.names,
        step.argument,
        &mut tables.cited,
        &mut tables.discharged,
    );
    Ok(())
}
