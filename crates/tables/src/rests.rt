// What a step rests on: a value that is handed on from step to step.
ghost use Rattle.std.specs.Prelude.{◌≡◌, ◌||◌, ◌≤◌};
ghost use Rattle.definition.specs.02-Ranges.{any};
ghost use Rattle.definition.specs.22-Steps.{no_rests, both_rests};
ghost use Rattle.tables.specs.Sets.{labels_of, rests_meant};

use crate::open_set::OpenSet;

// The labels that it leaves open, and whether it or a step above it cites evidence: a log row, condition or obligation.
#[derive(Clone, Copy, Debug, PartialEq, Eq)]
pub struct Resting {
    pub opens: OpenSet,
    pub cites: bool,
}

impl Resting {
    // On nothing.
    pub fn nothing() -> Resting
        ensures { rests_meant result ≡ no_rests }
    {
        Resting {
            opens: OpenSet::empty(),
            cites: false,
        }
    }

    // On this and on `other` together.
    pub fn join(self, other: Resting) -> Resting
        ensures { rests_meant result ≡ both_rests (rests_meant self) (rests_meant other) }
    {
        Resting {
            opens: self.opens.join(other.opens),
            cites: self.cites || other.cites,
        }
    }

    // Does it rest on evidence, or on one of the first `n` labels?
    pub fn on_something(self, n: u32) -> bool
        requires { n ≤ 32 }
        ensures { result ≡ (self.cites || any (labels_of self.opens.bits) n 0) }
    {
        self.cites || self.opens.some_below(n)
    }
}
