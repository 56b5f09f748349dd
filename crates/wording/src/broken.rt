// What is said of one entry, and what broke for it.
ghost use Rattle.std.specs.Prelude.{◌≡◌};
ghost use Rattle.paper.specs.Answers.{judgement_says};
ghost use Rattle.paper.specs.Explained.{explanation_says};
ghost use Rattle.paper.specs.ExplainedRight.{judgement_of};

use crate::caret;
use crate::refusals::entry_refused;
use lines::say;
use paper::refused::ENTRY_RULE;
use paper::{Explanation, Judgement, Place, Refusal, Verdict};
use std::io;

// The judgement that an explanation is of.
pub fn judged_as(why: Explanation) -> Judgement
    ensures { judgement_says result ≡ judgement_of (explanation_says why) }
{
    match why {
        Explanation::Part(_, _, _, _) => Ok(Verdict::Violated),
        Explanation::Key(place, _, _) => Err(Refusal {
            number: ENTRY_RULE,
            place: Place::Entry(place),
        }),
        Explanation::Nothing(judgement) => judgement,
    }
}

// The judgement of entry n, and how it was come by, if that is told.
pub fn say_judgement(
    rt: &impl Print,
    n: usize,
    how: &[u8],
    judgement: Judgement,
) -> io::Result<()> {
    match judgement {
        Ok(Verdict::Accepted) => {
            print!(rt; "accepted entry {n}")?;
            say(rt, how)?;
            say(rt, b"\n")
        }
        Ok(Verdict::Violated) => {
            print!(rt; "violated entry {n}")?;
            say(rt, how)?;
            say(rt, b"\n")
        }
        Err(refusal) => entry_refused(rt, n, how, refusal),
    }
}

// Entry n: its judgement, the part of the text that is false, or the name of the key whose record breaks its rule.
pub fn say_judged(
    rt: &impl Print,
    n: usize,
    why: Explanation,
    text: &[u8],
    list: &[u8],
) -> io::Result<()> {
    match why {
        Explanation::Part(number, place, from, to) => {
            println!(rt;
                "violated entry {n}: part {number} is false (its root is at byte {place})"
            )?;
            caret::show(rt, text, from, to)
        }
        Explanation::Key(_, _, _) => {
            say_judgement(rt, n, b"", judged_as(why))?;
            say(rt, b"its key is ")?;
            say(rt, valve::list_piece(list, why))?;
            say(rt, b"\n")
        }
        Explanation::Nothing(judgement) => say_judgement(rt, n, b"", judgement),
    }
}
