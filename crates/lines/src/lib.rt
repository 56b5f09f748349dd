// What the calls answer, in the words of a line on standard output: `read N`, `passed`, `accepted`, `violated`, `translated N`,
// `loaded N`, `printed N`, `fixed N`, `drafted N`, `agrees`, `differs`, or `refused NUMBER INPUT OFFSET` with INPUT one of text, list,
// entry, blocks, buffer, contract, table. A run tells its steps too, `accepted STEPS` or `violated STEPS`. What broke for an entry is `part NUMBER at OFFSET START LENGTH`,
// `key at OFFSET START LENGTH`, or `nothing ` and what was judged. What a text names is `summary BITS MARK`, and a recheck `reused ` or
// `judged ` and what was judged. A count is `counted ACCEPTED VIOLATED REFUSED CUT` and a number for each part, and entries end to end that ran are
// `ran ENTRIES STEPS`. The programs share these words.
//
// These only write, and a line's end is written by the caller. `start` is for programs that fill a room and use as much of it as they
// filled, and `numbers` for those that are given a table in bytes.
#![tactic(auto)]

mod tables;

ghost use Rattle.std.specs.Prelude.{◌≡◌, take};

use paper::{
    Agreement, Counted, Ended, Explanation, Judgement, Place, RanAll, Rechecking, Refusal, Summary,
    Verdict,
};
use std::io;
pub use tables::{KEPT, NUMBER, kept, numbers};

// Writes bytes as they are.
pub fn say(rt: &impl Print, s: &[u8]) -> io::Result<()> {
    rt.write_all(s)
}

// Writes a number in decimal.
pub fn say_number(rt: &impl Print, n: u64) -> io::Result<()> {
    rt.print(n)
}

// Writes a byte as two hexadecimal digits.
pub fn say_hex(rt: &impl Print, byte: u8) -> io::Result<()> {
    print!(rt; "{byte:02x}")
}

fn say_count(rt: &impl Print, what: &[u8], n: usize) -> io::Result<()> {
    say(rt, what)?;
    say_number(rt, n as u64)
}

fn say_refused(rt: &impl Print, refusal: Refusal) -> io::Result<()> {
    say(rt, b"refused ")?;
    say_number(rt, u64::from(refusal.number))?;
    match refusal.place {
        Place::Text(at) => say_count(rt, b" text ", at),
        Place::List(at) => say_count(rt, b" list ", at),
        Place::Entry(at) => say_count(rt, b" entry ", at),
        Place::Blocks(at) => say_count(rt, b" blocks ", at),
        Place::Buffer(at) => say_count(rt, b" buffer ", at),
        Place::Contract(at) => say_count(rt, b" contract ", at),
        Place::Table(at) => say_count(rt, b" table ", at),
    }
}

// Writes what a call answered that counts: what it did, `read`, `translated`, `loaded`, `printed`, `fixed` or `drafted`, and how many.
pub fn say_done(rt: &impl Print, what: &[u8], counted: Result<usize, Refusal>) -> io::Result<()> {
    match counted {
        Ok(n) => {
            say(rt, what)?;
            say_count(rt, b" ", n)
        }
        Err(refusal) => say_refused(rt, refusal),
    }
}

// Writes what `check` answered.
pub fn say_checking(rt: &impl Print, checking: Result<(), Refusal>) -> io::Result<()> {
    match checking {
        Ok(()) => say(rt, b"passed"),
        Err(refusal) => say_refused(rt, refusal),
    }
}

fn say_verdict(rt: &impl Print, verdict: Verdict) -> io::Result<()> {
    match verdict {
        Verdict::Accepted => say(rt, b"accepted"),
        Verdict::Violated => say(rt, b"violated"),
    }
}

// Writes what `judge` answered.
pub fn say_judgement(rt: &impl Print, judgement: Judgement) -> io::Result<()> {
    match judgement {
        Ok(verdict) => say_verdict(rt, verdict),
        Err(refusal) => say_refused(rt, refusal),
    }
}

// Writes what `run` answered, with the steps that it took.
pub fn say_running(rt: &impl Print, running: Result<Ended, Refusal>) -> io::Result<()> {
    match running {
        Ok(ended) => {
            say_verdict(rt, ended.verdict)?;
            say_count(rt, b" ", ended.steps)
        }
        Err(refusal) => say_refused(rt, refusal),
    }
}

// Writes what `run_all` answered: how many entries there are, and the steps of all of them.
pub fn say_running_all(rt: &impl Print, running: Result<RanAll, Refusal>) -> io::Result<()> {
    match running {
        Ok(ran) => {
            say_count(rt, b"ran ", ran.entries)?;
            say(rt, b" ")?;
            say_number(rt, ran.steps)
        }
        Err(refusal) => say_refused(rt, refusal),
    }
}

// Writes what `compare` answered.
pub fn say_agreement(rt: &impl Print, agreement: Result<Agreement, Refusal>) -> io::Result<()> {
    match agreement {
        Ok(Agreement::Agrees) => say(rt, b"agrees"),
        Ok(Agreement::Differs) => say(rt, b"differs"),
        Err(refusal) => say_refused(rt, refusal),
    }
}

// Where something stands, and the start and length of its stretch.
fn say_stretch(rt: &impl Print, place: usize, from: usize, to: usize) -> io::Result<()> {
    print!(rt; " at {place} {from} {}", to.saturating_sub(from))
}

// Writes what `reason` answered: a part of the text, a key of the list, or nothing and the judgement.
pub fn say_explanation(rt: &impl Print, why: Explanation) -> io::Result<()> {
    match why {
        Explanation::Part(number, place, from, to) => {
            say_count(rt, b"part ", number)?;
            say_stretch(rt, place, from, to)
        }
        Explanation::Key(place, from, to) => {
            say(rt, b"key")?;
            say_stretch(rt, place, from, to)
        }
        Explanation::Nothing(judgement) => {
            say(rt, b"nothing ")?;
            say_judgement(rt, judgement)
        }
    }
}

fn say_mark(rt: &impl Print, marked: bool) -> io::Result<()> {
    print!(rt; " {}", u8::from(marked))
}

// Writes what `summarize` answered: the set of the keys that are named as a number, and 1 where ::priority is, else 0.
pub fn say_summarizing(rt: &impl Print, summarizing: Result<Summary, Refusal>) -> io::Result<()> {
    match summarizing {
        Ok(summary) => {
            say(rt, b"summary ")?;
            say_number(rt, u64::from(summary.keys))?;
            say_mark(rt, summary.priority)
        }
        Err(refusal) => say_refused(rt, refusal),
    }
}

// Writes what `recheck` answered.
pub fn say_rechecking(rt: &impl Print, rechecking: Rechecking) -> io::Result<()> {
    match rechecking {
        Rechecking::Reused(judgement) => {
            say(rt, b"reused ")?;
            say_judgement(rt, judgement)
        }
        Rechecking::Judged(judgement) => {
            say(rt, b"judged ")?;
            say_judgement(rt, judgement)
        }
    }
}

// Writes numbers, each after a blank.
fn say_each(rt: &impl Print, numbers: &[u64]) -> io::Result<()> {
    for n in numbers {
        print!(rt; " {n}")?;
    }
    Ok(())
}

// Writes what `count` answered, with the numbers of the parts, which are the first of those that were lent.
pub fn say_counting(
    rt: &impl Print,
    counting: Result<Counted, Refusal>,
    numbers: &[u64; parts::MOST_PARTS],
) -> io::Result<()> {
    match counting {
        Ok(counted) => {
            let totals = [
                counted.accepted,
                counted.violated,
                counted.refused,
                counted.cut as u64,
            ];
            say(rt, b"counted")?;
            say_each(rt, &totals)?;
            say_each(rt, start(numbers, counted.parts))
        }
        Err(refusal) => say_refused(rt, refusal),
    }
}

// The first n bytes of a room, or numbers of a table, as far as there are any.
pub fn start<T>(room: &[T], n: usize) -> &[T]
    ensures { result.now ≡ take n room.now }
{
    room.get(..n).unwrap_or(room)
}
