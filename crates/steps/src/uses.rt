// Check 17: what may be used once only. And what the premises of a step rest on together.
ghost use Rattle.std.specs.Prelude.{◌≡◌, false, ◌&&◌, ◌+◌, ◌<◌, ◌≤◌, length, eqb};
ghost use Rattle.definition.specs.13-Formulas.{each_use};
ghost use Rattle.definition.specs.11-Layout.{label_part, premise_part, count};
ghost use Rattle.definition.specs.15-Records.{obligation_mark};
ghost use Rattle.definition.specs.18-Admission.{Parted};
ghost use Rattle.definition.specs.17-Case.{case_of};
ghost use Rattle.definition.specs.22-Steps.{no_rests, is_an_obligation, is_adding};
ghost use Rattle.tables.specs.Sets.{labels_of, rests_meant, marks};
ghost use Rattle.steps.specs.OpenLabels.{each_use_labels, OneMore, IsAbove, twice_used};
ghost use Rattle.steps.specs.CitedEntries.{ObligationThere, LabelThere, EntryThere};
ghost use Rattle.case_parts.specs.ShapedSteps.{PremisesBelow};
ghost use Rattle.step_shape.specs.Meanings.{names_meant, effect_meant, shape_meant};

use case_parts::{LABELS, Mark, count_of, label_at, obligation_at, premise_step};
use step_shape::{Effect, Names, Shape};
use tables::{OpenSet, Resting, rests_at};

// What the premises of a step rest on together, and whether two of them leave the same each-use label open.
#[derive(Clone, Copy, Debug, PartialEq, Eq)]
pub struct Above {
    pub rests: Resting,
    pub shared: bool,
}

impl Above {
    // Of no premises.
    pub fn nothing() -> Above
        ensures { (rests_meant result.rests ≡ no_rests) × (result.shared ≡ false) }
    {
        Above {
            rests: Resting::nothing(),
            shared: false,
        }
    }

    // With one premise more, which rests on `premise`.
    pub fn with(self, premise: Resting, each_use: OpenSet) -> Above
        ensures { OneMore (labels_of each_use.bits) (rests_meant premise) self result }
    {
        Above {
            rests: premise.join(self.rests),
            shared: premise.opens.shares(self.rests.opens, each_use) || self.shared,
        }
    }
}

// The labels of the file whose mark is each use.
pub fn each_use_labels(file: &[u8]) -> OpenSet
    requires { Parted file.now }
    ensures { labels_of result.bits ≡ each_use_labels file.now }
{
    let mut set = OpenSet::empty();
    for l in 0..count_of(file, LABELS) {
        if label_at(file, l).is(Mark::EachUse) {
            set = set.add(l as u32);
        }
    }
    set
}

// What the `len` premises from `from` on rest on together. The last comes first: each is held against those behind it.
pub fn rests_above(
    file: &[u8],
    from: usize,
    len: usize,
    left: &[u64; 2048],
    each_use: OpenSet,
) -> Above
    requires parted { Parted file.now × (from + len ≤ count file.now premise_part) }
    requires premises_below { PremisesBelow file.now from len 2048 }
    requires bits_value { labels_of each_use.bits ≡ each_use_labels file.now }
    ensures { IsAbove file.now from len left.now result }
{
    let mut above = Above::nothing();
    for j in (from..from + len).rev() {
        let p = premise_step(file, j) as usize;
        above = above.with(rests_at(left, p), each_use);
    }
    above
}

// Is the entry an each-use obligation that an earlier step has discharged?
fn discharged_before(file: &[u8], names: Names, argument: u16, discharged: &[bool; 64]) -> bool
    requires parted { Parted file.now }
    requires obligation_there { ObligationThere file.now (names_meant names) argument }
    ensures { result ≡ (is_an_obligation (names_meant names) && eqb (obligation_mark file.now argument) each_use && marks discharged.now argument) }
{
    matches!(names, Names::Obligation)
        && obligation_at(file, argument as usize).is(Mark::EachUse)
        && discharged[argument as usize]
}

// Is the label that the step adds an each-use label that is open above it?
fn open_before(effect: Effect, argument: u16, above: OpenSet, each_use: OpenSet) -> bool
    requires { LabelThere (effect_meant effect) argument }
    ensures { result ≡ (is_adding (effect_meant effect) && labels_of each_use.bits argument && labels_of above.bits argument) }
{
    matches!(effect, Effect::Adds) && each_use.has(argument as u32) && above.has(argument as u32)
}

// Check 17 of a step: an each-use obligation cited before, an each-use label open in two premises, or already open where the step adds it.
pub fn used_twice(
    file: &[u8],
    shape: Shape,
    argument: u16,
    above: Above,
    each_use: OpenSet,
    discharged: &[bool; 64],
) -> bool
    requires parted { Parted file.now }
    requires entry_there { EntryThere file.now (shape_meant shape) argument }
    requires bits_value { labels_of each_use.bits ≡ each_use_labels file.now }
    ensures { result ≡ twice_used (case_of file.now) (shape_meant shape) argument (marks discharged.now) (labels_of above.rests.opens.bits) above.shared }
{
    discharged_before(file, shape.names, argument, discharged)
        || above.shared
        || open_before(shape.effect, argument, above.rests.opens, each_use)
}
