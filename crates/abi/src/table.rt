// A table that ran as five numbers: the four of an answer, whose value is how many entries there are, and the steps of all of them.
ghost use Rattle.std.specs.Prelude.{◌≡◌};
ghost use Rattle.paper.specs.RunAll.{running_all_says};
ghost use Rattle.abi.specs.Told as spec;

use crate::answer;
use crate::answer::PolluxAnswer;
use paper::{RanAll, Refusal};

// struct pollux_table of include/pollux.h.
#[repr(C)]
#[derive(Clone, Copy)]
pub struct PolluxTable {
    pub says: u64,
    pub number: u64,
    pub input: u64,
    pub value: u64,
    pub steps: u64,
}

fn stepping(answered: PolluxAnswer, steps: u64) -> PolluxTable
    ensures { result ≡ spec.stepping answered steps }
{
    PolluxTable {
        says: answered.says,
        number: answered.number,
        input: answered.input,
        value: answered.value,
        steps,
    }
}

impl From<Result<RanAll, Refusal>> for PolluxTable {
    ghost from_gives = { λ r a. a ≡ spec.ran_through (running_all_says r) };

    fn from(r: Result<RanAll, Refusal>) -> PolluxTable {
        match r {
            Ok(ran) => stepping(answer::done(ran.entries), ran.steps),
            Err(refusal) => stepping(PolluxAnswer::from(refusal), 0),
        }
    }
}
