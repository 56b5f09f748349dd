// Entries that stand end to end in a file, through one buffer: judged one by one as they come, or run by blocks as many at a time as it holds.
ghost use Rattle.std.specs.Prelude.{◌≡◌, ◌+◌, ◌<◌, ◌≤◌, length, IfOk};
ghost use Rattle.streaming.specs.Tallies.{total, most_counted};

use crate::ran::run_held;
use crate::sizes::TURNS;
use crate::tally::{Tally, Totals, say_ran, say_tally};
use files::{
    MOST_PATH, TOO_LONG, argument, cannot_read, not_at_end, open_read, read_full, whole_entries,
};
use keys::entry_size;
use lines::start;
use paper::Explanation;
use std::env::Env;
use std::io;
use std::io::Read;
use std::rt::Files;
use wording::broken::{judged_as, say_judged};

// How entries are judged: by a text, without a word of what broke or with one, or by blocks.
#[derive(Clone, Copy)]
pub enum Way {
    Judge,
    Explain,
    Run,
}

// What is told of an entry, with what broke if that is asked for.
fn told(explains: bool, text: &[u8], list: &[u8], entry: &[u8]) -> Explanation {
    if explains {
        return valve::reason(text, list, entry);
    }
    Explanation::Nothing(valve::judge(text, list, entry))
}

// An entry has at least one byte, so there are no more entries than bytes.
fn judge_held(
    rt: &impl Print,
    explains: bool,
    text: &[u8],
    list: &[u8],
    entries: &[u8],
    before: Tally,
) -> io::Result<Tally>
    requires { total before + length entries.now < most_counted }
    ensures { IfOk result (λ t. total t ≤ total before + length entries.now) }
{
    let mut tally = before;
    for entry in entries.chunks(entry_size(list)) {
        let why = told(explains, text, list, entry);
        tally = tally.count(judged_as(why));
        say_judged(rt, tally.entries(), why, text, list)?;
    }
    Ok(tally)
}

// The entries that are held, by what was asked for.
fn judge_part(
    rt: &impl Print,
    way: Way,
    rule: &[u8],
    list: &[u8],
    entries: &[u8],
    before: Totals,
) -> io::Result<Totals>
    requires { total before.tally + length entries.now < most_counted }
    ensures { IfOk result (λ t. total t.tally ≤ total before.tally + length entries.now) }
{
    let explains = match way {
        Way::Judge => false,
        Way::Explain => true,
        Way::Run => return run_held(rt, list, rule, entries, before),
    };
    Ok(Totals {
        tally: judge_held(rt, explains, rule, list, entries, before.tally)?,
        steps: 0,
    })
}

// Judges what a file has left, as much at a time as the part holds. A file has fewer than 2^63 bytes, so the turns are enough.
fn judge_turns(
    rt: &impl Print,
    way: Way,
    rule: &[u8],
    list: &[u8],
    file: &mut impl Read,
    part: &mut [u8],
) -> io::Result<Totals>
    requires { length part.old ≤ 65536 }
    ensures few { IfOk result (λ t. total t.tally ≤ most_counted) }
    ensures kept { length part.new ≡ length part.old }
{
    let mut totals = Totals::none();
    for _turn in 0..TURNS {
        let got = read_full(file, part);
        totals = judge_part(rt, way, rule, list, start(part, got), totals)?;
        if got == 0 || got < part.len() {
            break;
        }
    }
    Ok(totals)
}

// The last line: how many entries there are, and for blocks in how many steps.
fn say_end(rt: &impl Print, way: Way, totals: Totals) -> io::Result<()>
    requires { total totals.tally ≤ most_counted }
{
    match way {
        Way::Run => say_ran(rt, totals),
        _ => say_tally(rt, totals.tally),
    }
}

// As many whole entries at a time as the buffer holds, so that none stands across two turns.
fn judge_entries(
    rt: &(impl Files + Print + Eprint),
    way: Way,
    rule: &[u8],
    list: &[u8],
    path: &[u8],
) -> io::Result<()> {
    let mut file = match open_read(rt, path) {
        Ok(file) => file,
        Err(reason) => return cannot_read(rt, path, reason),
    };
    let want = whole_entries(entry_size(list));
    let mut buffer = [0u8; 65536];
    let totals = judge_turns(rt, way, rule, list, &mut file, &mut buffer[..want])?;
    match not_at_end(&mut file) {
        None => say_end(rt, way, totals),
        Some(reason) => cannot_read(rt, path, reason),
    }
}

// Tells of the entries in the file that argument i names, against a text or blocks that are not refused.
pub fn judge_file(
    rt: &(impl Files + Env + Print + Eprint),
    way: Way,
    rule: &[u8],
    list: &[u8],
    i: usize,
) -> io::Result<()> {
    let mut path = [0u8; MOST_PATH];
    match argument(rt, i, &mut path) {
        Ok(n) => judge_entries(rt, way, rule, list, &path[..n]),
        Err(reason) => cannot_read(rt, TOO_LONG, reason),
    }
}
