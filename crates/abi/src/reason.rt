// A reason as eight numbers: the four of the judgement, and four of what is shown.
ghost use Rattle.std.specs.Prelude.{◌-◌, ◌≡◌};
ghost use Rattle.paper.specs.Explained.{explanation_says};
ghost use Rattle.abi.specs.Told.{showing, reasoned};

use crate::answer::PolluxAnswer;
use paper::{Explanation, Judgement, Place, Refusal, Verdict, refused};

// struct pollux_reason of include/pollux.h.
#[repr(C)]
#[derive(Clone, Copy)]
pub struct PolluxReason {
    pub says: u64,
    pub number: u64,
    pub input: u64,
    pub value: u64,
    pub part: u64,
    pub place: u64,
    pub start: u64,
    pub length: u64,
}

fn reason(
    judged: PolluxAnswer,
    part: usize,
    place: usize,
    start: usize,
    length: usize,
) -> PolluxReason
    ensures { result ≡ showing judged part place start length }
{
    PolluxReason {
        says: judged.says,
        number: judged.number,
        input: judged.input,
        value: judged.value,
        part: part as u64,
        place: place as u64,
        start: start as u64,
        length: length as u64,
    }
}

// No stretch of an explanation is turned round, but nothing here has to know it.
fn length(from: usize, to: usize) -> usize
    ensures { result ≡ to - from }
{
    if from < to {
        return to - from;
    }
    0
}

impl From<Explanation> for PolluxReason {
    ghost from_gives = { λ r shown. shown ≡ reasoned (explanation_says r) };

    fn from(r: Explanation) -> PolluxReason {
        match r {
            Explanation::Part(number, place, from, to) => {
                let violated: Judgement = Ok(Verdict::Violated);
                let judged = PolluxAnswer::from(violated);
                reason(judged, number, place, from, length(from, to))
            }
            Explanation::Key(place, from, to) => {
                let judged = PolluxAnswer::from(Refusal {
                    number: refused::ENTRY_RULE,
                    place: Place::Entry(place),
                });
                reason(judged, 0, place, from, length(from, to))
            }
            Explanation::Nothing(judgement) => reason(PolluxAnswer::from(judgement), 0, 0, 0, 0),
        }
    }
}
