// The verdict on a case that no check refuses.

// Passed, with how many obligations are discharged and how many rows cited; or nothing is owed.
#[derive(Clone, Copy, Debug, PartialEq, Eq)]
pub enum Verdict {
    Passed(u16, u16),
    NoneOwed,
}
