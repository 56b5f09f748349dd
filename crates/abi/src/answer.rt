// An answer as four numbers.
ghost use Rattle.std.specs.Prelude.{◌≡◌};
ghost use Rattle.paper.specs.Answers.{input_of, offset_of, accepts, says, judgement_says, running_says};
ghost use Rattle.paper.specs.Comparing.{agreement_says};
ghost use Rattle.abi.specs.Told.{done, turned_away, counted, passed, verdict_after, judged, ran, compared};

use paper::{Agreement, Ended, Judgement, Place, Refusal, Verdict};

#[repr(C)]
#[derive(Clone, Copy)]
pub struct PolluxAnswer {
    pub says: u64,
    pub number: u64,
    pub input: u64,
    pub value: u64,
}

fn answer(says: u64, value: usize) -> PolluxAnswer
    ensures { result ≡ record { says = says; number = 0; input = 0; value = value } }
{
    PolluxAnswer {
        says,
        number: 0,
        input: 0,
        value: value as u64,
    }
}

// Passed, read, written or the like: how many, or 0 where there is nothing to count.
pub(crate) fn done(n: usize) -> PolluxAnswer
    ensures { result ≡ done n }
{
    answer(3, n)
}

fn refused_in(number: u8, input: u64, at: usize) -> PolluxAnswer
    ensures { result ≡ record { says = 0; number = number; input = input; value = at } }
{
    PolluxAnswer {
        says: 0,
        number: u64::from(number),
        input,
        value: at as u64,
    }
}

impl From<Refusal> for PolluxAnswer {
    ghost from_gives = { λ refusal a. a ≡ turned_away refusal.number (input_of refusal.place) (offset_of refusal.place) };

    fn from(refusal: Refusal) -> PolluxAnswer {
        let number = refusal.number;
        match refusal.place {
            Place::Text(at) => refused_in(number, 1, at),
            Place::List(at) => refused_in(number, 2, at),
            Place::Entry(at) => refused_in(number, 3, at),
            Place::Blocks(at) => refused_in(number, 4, at),
            Place::Buffer(at) => refused_in(number, 5, at),
            Place::Contract(at) => refused_in(number, 6, at),
            Place::Table(at) => refused_in(number, 7, at),
        }
    }
}

// How many were read, written, loaded, printed, fixed or drafted.
impl From<Result<usize, Refusal>> for PolluxAnswer {
    ghost from_gives = { λ r a. a ≡ counted (says r) };

    fn from(r: Result<usize, Refusal>) -> PolluxAnswer {
        match r {
            Ok(n) => done(n),
            Err(refusal) => PolluxAnswer::from(refusal),
        }
    }
}

// Of a check, which counts nothing.
impl From<Result<(), Refusal>> for PolluxAnswer {
    ghost from_gives = { λ r a. a ≡ passed (says r) };

    fn from(r: Result<(), Refusal>) -> PolluxAnswer {
        match r {
            Ok(()) => done(0),
            Err(refusal) => PolluxAnswer::from(refusal),
        }
    }
}

impl From<Ended> for PolluxAnswer {
    ghost from_gives = { λ ended a. a ≡ verdict_after ended.steps (accepts ended.verdict) };

    fn from(ended: Ended) -> PolluxAnswer {
        match ended.verdict {
            Verdict::Accepted => answer(1, ended.steps),
            Verdict::Violated => answer(2, ended.steps),
        }
    }
}

// Of a judgement from the text, which takes no steps.
impl From<Judgement> for PolluxAnswer {
    ghost from_gives = { λ r a. a ≡ judged (judgement_says r) };

    fn from(r: Judgement) -> PolluxAnswer {
        match r {
            Ok(verdict) => PolluxAnswer::from(Ended { verdict, steps: 0 }),
            Err(refusal) => PolluxAnswer::from(refusal),
        }
    }
}

impl From<Result<Ended, Refusal>> for PolluxAnswer {
    ghost from_gives = { λ r a. a ≡ ran (running_says r) };

    fn from(r: Result<Ended, Refusal>) -> PolluxAnswer {
        match r {
            Ok(ended) => PolluxAnswer::from(ended),
            Err(refusal) => PolluxAnswer::from(refusal),
        }
    }
}

impl From<Result<Agreement, Refusal>> for PolluxAnswer {
    ghost from_gives = { λ r a. a ≡ compared (agreement_says r) };

    fn from(r: Result<Agreement, Refusal>) -> PolluxAnswer {
        match r {
            Ok(Agreement::Agrees) => answer(4, 0),
            Ok(Agreement::Differs) => answer(5, 0),
            Err(refusal) => PolluxAnswer::from(refusal),
        }
    }
}
