// Entries by blocks, all that are held at a time: a line for each, and the steps of all.
ghost use Rattle.std.specs.Prelude.{◌≡◌, ◌+◌, ◌<◌, ◌≤◌, length, IfOk};
ghost use Rattle.paper.specs.Answers.{judgement_says};
ghost use Rattle.paper.specs.Numbers.{byte_at};
ghost use Rattle.paper.specs.Promised.{judgement_of_run};
ghost use Rattle.paper.specs.TranslationCorrect.{verdict_of};
ghost use Rattle.paper.specs.Calls.{run_answer};
ghost use Rattle.paper.specs.RunAll.{running_all_says};
ghost use Rattle.streaming.specs.Tallies.{total, most_counted, verdict_by, steps_of, StepsAdded};

use crate::sizes::whole_of;
use crate::tally::{Tally, Totals};
use keys::entry_size;
use machine::{ACCEPTED, VIOLATED};
use paper::{Ended, Judgement, RanAll, Refusal, Verdict};
use std::io;
use wording::broken::say_judgement;

// The judgement of a run, its steps aside.
fn judged_by(running: Result<Ended, Refusal>) -> Judgement
    ensures { result ≡ judgement_of_run running }
{
    let ended = running?;
    Ok(ended.verdict)
}

// The byte of entry k; 0, as of one that is refused, where it has none.
fn byte_of(answers: &[u8], k: usize) -> u8
    ensures { result ≡ byte_at answers.now k }
{
    answers.get(k).copied().unwrap_or(0)
}

// An entry by its byte. A byte has no place, so one that tells no verdict is that of an entry which is run alone.
fn judgement_of(list: &[u8], blocks: &[u8], entry: &[u8], byte: u8) -> Judgement
    ensures { judgement_says result ≡ verdict_by byte (verdict_of (run_answer list.now blocks.now entry.now)) }
{
    match byte {
        ACCEPTED => Ok(Verdict::Accepted),
        VIOLATED => Ok(Verdict::Violated),
        _ => judged_by(valve::run(list, blocks, entry)),
    }
}

// Says of each entry what its byte tells. A last one that is cut has none. An entry has at least one byte, so there are no more entries than bytes.
fn tell_each(
    rt: &impl Print,
    list: &[u8],
    blocks: &[u8],
    entries: &[u8],
    answers: &[u8],
    before: Tally,
) -> io::Result<Tally>
    requires { total before + length entries.now < most_counted }
    ensures { IfOk result (λ t. total t ≤ total before + length entries.now) }
{
    let mut tally = before;
    for (k, entry) in entries.chunks(entry_size(list)).enumerate() {
        let judgement = judgement_of(list, blocks, entry, byte_of(answers, k));
        tally = tally.count(judgement);
        say_judgement(rt, tally.entries(), b"", judgement)?;
    }
    Ok(tally)
}

fn steps_of(running: Result<RanAll, Refusal>) -> u64
    ensures { result ≡ steps_of (running_all_says running) }
{
    match running {
        Ok(ran) => ran.steps,
        Err(_) => 0,
    }
}

// Runs the entries that are held. The blocks have loaded, only whole entries are run, and there are more bytes for answers than entries, so that
// nothing is refused.
pub(crate) fn run_held(
    rt: &impl Print,
    list: &[u8],
    blocks: &[u8],
    entries: &[u8],
    before: Totals,
) -> io::Result<Totals>
    requires { total before.tally + length entries.now < most_counted }
    ensures tally_bound { IfOk result (λ t. total t.tally ≤ total before.tally + length entries.now) }
    ensures steps_added { IfOk result (λ t. StepsAdded list.now blocks.now entries.now before.steps t.steps) }
{
    let whole = whole_of(entries, entry_size(list));
    let mut answers = [0u8; 65536];
    let ran = valve::run_all(list, blocks, whole, &mut answers);
    let tally = tell_each(rt, list, blocks, entries, &answers, before.tally)?;
    Ok(Totals {
        tally: tally,
        steps: before.steps.wrapping_add(steps_of(ran)),
    })
}
