// A count as eight numbers: the four of an answer, whose value is how many parts the text has, and four of the entries.
ghost use Rattle.std.specs.Prelude.{◌≡◌};
ghost use Rattle.paper.specs.Counting.{counting_says};
ghost use Rattle.abi.specs.Told as spec;

use crate::answer;
use crate::answer::PolluxAnswer;
use paper::{Counted, Refusal};

// struct pollux_counts of include/pollux.h.
#[repr(C)]
#[derive(Clone, Copy)]
pub struct PolluxCounts {
    pub says: u64,
    pub number: u64,
    pub input: u64,
    pub value: u64,
    pub accepted: u64,
    pub violated: u64,
    pub refused: u64,
    pub cut: u64,
}

fn totals(
    answered: PolluxAnswer,
    accepted: u64,
    violated: u64,
    refused: u64,
    cut: usize,
) -> PolluxCounts
    ensures { result ≡ spec.totals answered accepted violated refused cut }
{
    PolluxCounts {
        says: answered.says,
        number: answered.number,
        input: answered.input,
        value: answered.value,
        accepted,
        violated,
        refused,
        cut: cut as u64,
    }
}

impl From<Result<Counted, Refusal>> for PolluxCounts {
    ghost from_gives = { λ r c. c ≡ spec.tallied (counting_says r) };

    fn from(r: Result<Counted, Refusal>) -> PolluxCounts {
        match r {
            Ok(counted) => totals(
                answer::done(counted.parts),
                counted.accepted,
                counted.violated,
                counted.refused,
                counted.cut,
            ),
            Err(refusal) => totals(PolluxAnswer::from(refusal), 0, 0, 0, 0),
        }
    }
}
