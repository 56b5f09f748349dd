// A recheck as five numbers: the four of the judgement, and whether it was reused.
ghost use Rattle.std.specs.Prelude.{◌≡◌};
ghost use Rattle.paper.specs.Rechecking.{rechecking_says};
ghost use Rattle.abi.specs.Told as spec;

use crate::answer::PolluxAnswer;
use paper::Rechecking;

// struct pollux_rechecked of include/pollux.h.
#[repr(C)]
#[derive(Clone, Copy)]
pub struct PolluxRechecked {
    pub says: u64,
    pub number: u64,
    pub input: u64,
    pub value: u64,
    pub reused: u64,
}

fn saying(judged: PolluxAnswer, reused: u64) -> PolluxRechecked
    ensures { result ≡ spec.saying judged reused }
{
    PolluxRechecked {
        says: judged.says,
        number: judged.number,
        input: judged.input,
        value: judged.value,
        reused,
    }
}

impl From<Rechecking> for PolluxRechecked {
    ghost from_gives = { λ r a. a ≡ spec.rechecked (rechecking_says r) };

    fn from(r: Rechecking) -> PolluxRechecked {
        match r {
            Rechecking::Reused(earlier) => saying(PolluxAnswer::from(earlier), 1),
            Rechecking::Judged(judgement) => saying(PolluxAnswer::from(judgement), 0),
        }
    }
}
