// Check 13: the premises of a step, each used once in all.
ghost use Rattle.std.specs.Prelude.{◌≡◌, ◌+◌, ◌≤◌, length};
ghost use Rattle.definition.specs.11-Layout.{premise_part, count};
ghost use Rattle.definition.specs.18-Admission.{Parted};
ghost use Rattle.step_shape.specs.TakenPremises.{Taken};

use case_parts::premise_step;
use tables::{is_used, mark_used};

// Is one of the premises no earlier step, or used before? Each up to the first such is marked as used.
pub fn take_premises(file: &[u8], k: usize, from: usize, len: usize, left: &mut [u64; 2048]) -> bool
    requires parted { Parted file.now × (from + len ≤ count file.now premise_part) }
    requires k_bound { (k ≤ 2048) × (length left.old ≡ 2048) }
    ensures { Taken file.now k from len left.old result left.new }
{
    for j in from..from + len {
        let p = premise_step(file, j) as usize;
        if k <= p || is_used(left, p) {
            return true;
        }
        mark_used(left, p);
    }
    false
}
