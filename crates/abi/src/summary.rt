// A summary as seven numbers: the four of an answer, and three of what the text names.
ghost use Rattle.std.specs.Prelude.{◌≡◌};
ghost use Rattle.paper.specs.Named.{summarizing_says};
ghost use Rattle.abi.specs.Told as spec;

use crate::answer;
use crate::answer::PolluxAnswer;
use paper::{Refusal, Summary};

// struct pollux_summary of include/pollux.h.
#[repr(C)]
#[derive(Clone, Copy)]
pub struct PolluxSummary {
    pub says: u64,
    pub number: u64,
    pub input: u64,
    pub value: u64,
    pub keys: u64,
    pub priority: u64,
    pub count: u64,
}

fn naming(checked: PolluxAnswer, keys: u32, priority: u64, count: u32) -> PolluxSummary
    ensures { result ≡ spec.naming checked keys priority count }
{
    PolluxSummary {
        says: checked.says,
        number: checked.number,
        input: checked.input,
        value: checked.value,
        keys: u64::from(keys),
        priority,
        count: u64::from(count),
    }
}

impl From<Result<Summary, Refusal>> for PolluxSummary {
    ghost from_gives = { λ r a. a ≡ spec.summarized (summarizing_says r) };

    fn from(r: Result<Summary, Refusal>) -> PolluxSummary {
        match r {
            Ok(summary) => naming(
                answer::done(0),
                summary.keys,
                u64::from(summary.priority),
                valve::count_keys(summary.keys),
            ),
            Err(refusal) => naming(PolluxAnswer::from(refusal), 0, 0, 0),
        }
    }
}
