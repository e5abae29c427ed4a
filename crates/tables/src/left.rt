// The table of what the steps leave behind. Of an entry, the binary digits 0 to 31 are the labels that the step leaves open, digit 32 tells that a later step has it as a premise, and digit 33 that it or a step above it cites evidence.
ghost use Rattle.std.specs.Prelude.{◌≡◌, true, ◌<◌, length};
ghost use Rattle.definition.specs.02-Ranges.{update};
ghost use Rattle.definition.specs.22-Steps.{with_rests, with_used};
ghost use Rattle.tables.specs.Sets.{labels_of, rests_meant, left_in, rests_of, opens_of, used_of};

use crate::open_set::OpenSet;
use crate::rests::Resting;

// The digits of an entry behind those of the labels.
const USED: u32 = 32;

const CITES: u32 = 33;

// The labels that step `k` leaves open.
pub fn opens_at(left: &[u64; 2048], k: usize) -> OpenSet
    requires { k < 2048 }
    ensures { labels_of result.bits ≡ opens_of left.now k }
{
    OpenSet {
        bits: (left[k] % (1 << USED)) as u32,
    }
}

// What step `k` rests on.
pub fn rests_at(left: &[u64; 2048], k: usize) -> Resting
    requires { k < 2048 }
    ensures { rests_meant result ≡ rests_of left.now k }
{
    Resting {
        opens: opens_at(left, k),
        cites: (left[k] >> CITES) % 2 == 1,
    }
}

// Step `k` rests on this, and on nothing else.
pub fn set_rests(left: &mut [u64; 2048], k: usize, rests: Resting)
    requires { (k < 2048) × (length left.old ≡ 2048) }
    ensures { (length left.new ≡ 2048) × (left_in left.new ≡ with_rests (left_in left.old) (update (rests_of left.old) k (rests_meant rests))) }
{
    let used = (left[k] >> USED) % 2;
    let cites = u64::from(rests.cites);
    left[k] = ((used + 2 * cites) << USED) + u64::from(rests.opens.bits);
}

// Does a later step have step `k` as a premise?
pub fn is_used(left: &[u64; 2048], k: usize) -> bool
    requires { k < 2048 }
    ensures { result ≡ used_of left.now k }
{
    (left[k] >> USED) % 2 == 1
}

pub fn mark_used(left: &mut [u64; 2048], k: usize)
    requires { (k < 2048) × (length left.old ≡ 2048) }
    ensures { (length left.new ≡ 2048) × (left_in left.new ≡ with_used (left_in left.old) (update (used_of left.old) k true)) }
{
    left[k] |= 1 << USED;
}
