// A recheck by its third input, a change of an entry: a byte for the earlier answer (1 accepted, 2 violated, any other refused with 20 at
// entry 0), the old entry's length in four bytes, the old entry, and the new one.
ghost use Rattle.std.specs.Prelude.{◌≡◌};
ghost use Rattle.paper.specs.Answers.{judgement_says};
ghost use Rattle.answers.specs.Changes.{earlier_answer};

use paper::refused::ENTRY_RULE;
use paper::{Judgement, Place, Refusal, Verdict};
use std::io;

const ACCEPTED: u8 = 1;

const VIOLATED: u8 = 2;

// What stands before the old entry.
const HEAD: usize = 5;

fn earlier_answer(byte: u8) -> Judgement
    ensures { judgement_says result ≡ earlier_answer byte }
{
    match byte {
        ACCEPTED => Ok(Verdict::Accepted),
        VIOLATED => Ok(Verdict::Violated),
        _ => Err(Refusal {
            number: ENTRY_RULE,
            place: Place::Entry(0),
        }),
    }
}

// Says that an input is shorter than what it is made of.
pub(crate) fn malformed(rt: &impl Print) -> io::Result<()> {
    lines::say(rt, b"malformed")
}

// Rechecks the new entry, unless the change is shorter than what stands before the old entry, or than the old entry.
pub(crate) fn recheck(rt: &impl Print, text: &[u8], list: &[u8], change: &[u8]) -> io::Result<()> {
    if change.len() < HEAD {
        return malformed(rt);
    }
    let size = number::word(change, 1) as usize;
    let entries = &change[HEAD..];
    if entries.len() < size {
        return malformed(rt);
    }
    let old = lines::start(entries, size);
    let earlier = earlier_answer(change[0]);
    let new = &entries[size..];
    lines::say_rechecking(rt, valve::recheck(text, list, old, earlier, new))
}
