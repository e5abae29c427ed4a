// The labels that a step leaves open: a value that is handed on from step to step.
ghost use Rattle.std.specs.Prelude.{◌≡◌, true, false, ◌&&◌, ◌||◌, ◌<◌, ◌≤◌};
ghost use Rattle.definition.specs.02-Ranges.{any, update};
ghost use Rattle.tables.specs.Sets.{labels_of};

#[derive(Clone, Copy, Debug, PartialEq, Eq)]
pub struct OpenSet {
    pub bits: u32,
}

impl OpenSet {
    pub fn empty() -> OpenSet
        ensures { labels_of result.bits ≡ (λ l. false) }
    {
        OpenSet { bits: 0 }
    }

    // The labels of both sets together.
    pub fn join(self, other: OpenSet) -> OpenSet
        ensures { labels_of result.bits ≡ (λ l. labels_of self.bits l || labels_of other.bits l) }
    {
        OpenSet {
            bits: self.bits | other.bits,
        }
    }

    pub fn add(self, label: u32) -> OpenSet
        requires { label < 32 }
        ensures { labels_of result.bits ≡ update (labels_of self.bits) label true }
    {
        OpenSet {
            bits: self.bits | (1 << label),
        }
    }

    // A label that is not open may be closed.
    pub fn close(self, label: u32) -> OpenSet
        requires { label < 32 }
        ensures { labels_of result.bits ≡ update (labels_of self.bits) label false }
    {
        OpenSet {
            bits: self.bits & !(1 << label),
        }
    }

    // Is a label of `each_use` in both sets?
    pub fn shares(self, other: OpenSet, each_use: OpenSet) -> bool
        ensures { result ≡ any (λ l. labels_of each_use.bits l && labels_of self.bits l && labels_of other.bits l) 32 0 }
    {
        (each_use.bits & self.bits) & other.bits != 0
    }

    // Is one of the first `n` labels in the set?
    pub fn some_below(self, n: u32) -> bool
        requires { n ≤ 32 }
        ensures { result ≡ any (labels_of self.bits) n 0 }
    {
        u64::from(self.bits) % (1 << n) != 0
    }

    pub fn has(self, label: u32) -> bool
        requires { label < 32 }
        ensures { result ≡ labels_of self.bits label }
    {
        (self.bits >> label) % 2 == 1
    }
}
