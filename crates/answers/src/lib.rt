// Answers in numbers, as C gets them.
#![tactic(auto)]

ghost use Rattle.std.specs.Prelude.{◌≡◌};
ghost use Rattle.definition.specs.32-Numbers.{verdict_numbers, run_numbers, count_numbers};
ghost use Rattle.words.specs.Meanings.{run_meant};
ghost use Rattle.definition.specs.04-Checks.{refuses};
ghost use Rattle.definition.specs.31-Outcome.{refused};
ghost use Rattle.checker.specs.Meanings.{verdict_meant};
ghost use Rattle.answers.specs.Meanings.{verdict_numbers_meant, run_numbers_meant};

use checker::Verdict;
use words::Refusal;

// A verdict: its kind, then the two values of the case, 0 where it has none.
#[repr(C)]
#[derive(Clone, Copy, Debug, PartialEq, Eq)]
pub struct VerdictNumbers {
    pub kind: u16,
    pub first: u16,
    pub second: u16,
}

// What a run of checks comes to: the number and place of the first that fails, or 0 and 0.
#[repr(C)]
#[derive(Clone, Copy, Debug, PartialEq, Eq)]
pub struct RunNumbers {
    pub number: u16,
    pub place: u16,
}

// A refusal, of a verdict or of a count: kind 2, with the number of its check and its place.
pub fn refused(number: u16, place: u16) -> VerdictNumbers
    ensures { (verdict_numbers_meant result ≡ verdict_numbers (refused number place)) × (verdict_numbers_meant result ≡ count_numbers (refuses number place)) }
{
    VerdictNumbers {
        kind: 2,
        first: number,
        second: place,
    }
}

// A run of checks of which one fails: its number and its place.
pub fn failed(number: u16, place: u16) -> RunNumbers
    ensures { run_numbers_meant result ≡ run_numbers (refuses number place) }
{
    RunNumbers { number, place }
}

impl From<Result<Verdict, Refusal>> for VerdictNumbers {
    ghost from_gives = { λ verdict numbers. verdict_numbers_meant numbers ≡ verdict_numbers (verdict_meant verdict) };

    fn from(verdict: Result<Verdict, Refusal>) -> VerdictNumbers {
        match verdict {
            Ok(Verdict::Passed(obligations, rows)) => VerdictNumbers {
                kind: 0,
                first: obligations,
                second: rows,
            },
            Ok(Verdict::NoneOwed) => VerdictNumbers {
                kind: 1,
                first: 0,
                second: 0,
            },
            Err(refusal) => refused(refusal.check.number(), refusal.place),
        }
    }
}

// A count is kind 0; a refusal is that of a verdict.
impl From<Result<u16, Refusal>> for VerdictNumbers {
    ghost from_gives = { λ count numbers. verdict_numbers_meant numbers ≡ count_numbers (run_meant count) };

    fn from(count: Result<u16, Refusal>) -> VerdictNumbers {
        match count {
            Ok(count) => VerdictNumbers {
                kind: 0,
                first: count,
                second: 0,
            },
            Err(refusal) => refused(refusal.check.number(), refusal.place),
        }
    }
}

impl From<Result<(), Refusal>> for RunNumbers {
    ghost from_gives = { λ run numbers. run_numbers_meant numbers ≡ run_numbers (run_meant run) };

    fn from(run: Result<(), Refusal>) -> RunNumbers {
        match run {
            Ok(()) => RunNumbers {
                number: 0,
                place: 0,
            },
            Err(refusal) => failed(refusal.check.number(), refusal.place),
        }
    }
}
