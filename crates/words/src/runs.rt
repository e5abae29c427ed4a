// Checks, and runs of them: a run ends at the first check that fails.
ghost use Rattle.std.specs.Prelude.{◌≡◌, ℕ, Bool, ◌<◌, ◌≤◌};
ghost use Rattle.definition.specs.04-Checks.{try, single, each};
ghost use Rattle.words.specs.Meanings.{check_number, run_meant};

// The checks, by what they refuse, with their numbers in the documents.
#[derive(Clone, Copy, Debug, PartialEq, Eq)]
pub enum Check {
    Length = 1,
    Part = 2,
    Formula = 3,
    RepeatedFormula = 4,
    LogRow = 5,
    Condition = 6,
    Obligation = 7,
    Label = 8,
    Audited = 9,
    NoSteps = 10,
    NothingOwed = 11,
    Shape = 12,
    Premise = 13,
    AbsentEntry = 14,
    BeyondEntries = 15,
    UnseenRow = 16,
    UsedTwice = 17,
    Misfit = 18,
    NotFresh = 19,
    UnusedStep = 20,
    OpenLabel = 21,
    WrongEnd = 22,
    ShortRoom = 23,
    PremiseKind = 24,
    PremiseParty = 25,
    Instance = 26,
    DataVariable = 27,
    NoTautology = 28,
    ShortIndex = 29,
    OtherIndex = 30,
    Undone = 31,
    NamedAgain = 32,
    Pair = 33,
}

impl Check {
    // Its number in the documents.
    pub fn number(self) -> u16
        ensures { result ≡ check_number self }
    {
        self as u16
    }
}

// A check that failed, and its place.
#[derive(Clone, Copy, Debug, PartialEq, Eq)]
pub struct Refusal {
    pub check: Check,
    pub place: u16,
}

// A check with one place.
pub fn single(check: Check, place: u16, fault: bool) -> Result<(), Refusal>
    ensures { run_meant result ≡ try (single (check_number check) place fault) }
{
    if fault {
        Err(Refusal { check, place })
    } else {
        Ok(())
    }
}

// A check of each of the places 0 to `count` - 1, the lowest first.
pub fn each<F: Fn(usize) -> bool>(check: Check, count: usize, fault: F) -> Result<(), Refusal>
    requires fits { count ≤ 65536 }
    requires callable { (k : ℕ) → k < count → F.pre fault k }
    ensures { (f : ℕ → Bool) → ((k : ℕ) (b : Bool) → k < count → F.post fault k b → b ≡ f k) → run_meant result ≡ try (each (check_number check) count f) }
{
    for k in 0..count {
        if fault(k) {
            return Err(Refusal {
                check,
                place: k as u16,
            });
        }
    }
    Ok(())
}
