// Four numbers, which may be any, as the judgement that C means by them.
ghost use Rattle.std.specs.Prelude.{◌≡◌};
ghost use Rattle.abi.specs.Heard as spec;

use crate::answer::PolluxAnswer;
use paper::{Judgement, Place, Refusal, Verdict, refused};

// What numbers are heard as that no judgement is told by.
fn no_answer() -> Judgement
    ensures { result ≡ spec.no_answer }
{
    Err(Refusal {
        number: refused::ENTRY_RULE,
        place: Place::Entry(0),
    })
}

fn place_in(input: u64, at: usize) -> Place
    ensures { result ≡ spec.place_in input at }
{
    match input {
        1 => Place::Text(at),
        2 => Place::List(at),
        3 => Place::Entry(at),
        4 => Place::Blocks(at),
        5 => Place::Buffer(at),
        6 => Place::Contract(at),
        _ => Place::Table(at),
    }
}

// A number that a byte holds, in one of the seven inputs.
fn refusal(a: PolluxAnswer) -> Judgement
    ensures { result ≡ spec.refusal_in a }
{
    if 255 < a.number {
        return no_answer();
    }
    if a.input < 1 {
        return no_answer();
    }
    if 7 < a.input {
        return no_answer();
    }
    Err(Refusal {
        number: a.number as u8,
        place: place_in(a.input, a.value as usize),
    })
}

// Nothing but a verdict.
fn plain(a: PolluxAnswer) -> bool
    ensures { result ≡ spec.plain a }
{
    if a.number != 0 {
        return false;
    }
    if a.input != 0 {
        return false;
    }
    a.value == 0
}

fn verdict(a: PolluxAnswer) -> Judgement
    ensures { result ≡ spec.verdict_in a }
{
    if !plain(a) {
        return no_answer();
    }
    let says = a.says;
    match says {
        1 => Ok(Verdict::Accepted),
        2 => Ok(Verdict::Violated),
        _ => no_answer(),
    }
}

impl From<PolluxAnswer> for Judgement {
    ghost from_gives = { λ a r. r ≡ spec.heard_as a };

    fn from(a: PolluxAnswer) -> Judgement {
        if a.says == 0 {
            return refusal(a);
        }
        verdict(a)
    }
}
