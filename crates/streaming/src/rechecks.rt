// Entries that stand end to end in two files, each new one rechecked against the old one at its place. Both files stream, through a buffer
// each. The earlier answer of an old entry is what judging it says.
ghost use Rattle.std.specs.Prelude.{◌≡◌, ◌+◌, ◌<◌, ◌≤◌, length, IfOk};
ghost use Rattle.streaming.specs.Tallies.{total, most_counted, answer_in, reused_by};

use crate::sizes::TURNS;
use crate::tally::{Tally, say_tally};
use files::{
    MOST_PATH, TOO_LONG, argument, cannot_read, not_at_end, open_read, read_full, whole_entries,
};
use keys::entry_size;
use lines::{say, start};
use paper::{Judgement, Rechecking};
use std::env::Env;
use std::io;
use std::io::Read;
use std::rt::Files;
use wording::broken::say_judgement;

// Both files, open.
#[derive(Drop)]
pub struct Both<F> {
    pub old: F,
    pub new: F,
}

// The new entries by their answers, and how many of these were reused.
#[derive(Clone, Copy)]
pub struct Counts {
    pub tally: Tally,
    pub reused: usize,
}

// What was rechecked, and how many bytes the last turn got of each file: of one that ended before the other it got fewer.
#[derive(Clone, Copy)]
pub struct Course {
    pub counts: Counts,
    pub old: usize,
    pub new: usize,
}

fn answer_in(rechecked: Rechecking) -> Judgement
    ensures { result ≡ answer_in rechecked }
{
    match rechecked {
        Rechecking::Reused(judgement) => judgement,
        Rechecking::Judged(judgement) => judgement,
    }
}

fn reused_by(rechecked: Rechecking) -> usize
    ensures { (result ≡ reused_by rechecked) × (result ≤ 1) }
{
    match rechecked {
        Rechecking::Reused(_) => 1,
        Rechecking::Judged(_) => 0,
    }
}

fn say_rechecked(rt: &impl Print, n: usize, rechecked: Rechecking) -> io::Result<()> {
    match rechecked {
        Rechecking::Reused(judgement) => say_judgement(rt, n, b", reused", judgement),
        Rechecking::Judged(judgement) => say_judgement(rt, n, b", judged", judgement),
    }
}

fn recheck_one(text: &[u8], list: &[u8], old: &[u8], new: &[u8]) -> Rechecking {
    let earlier = valve::judge(text, list, old);
    valve::recheck(text, list, old, earlier, new)
}

// As many entries of each as there are of both. An entry has at least one byte, so there are no more entries than bytes.
fn recheck_held(
    rt: &impl Print,
    text: &[u8],
    list: &[u8],
    old: &[u8],
    new: &[u8],
    before: Counts,
) -> io::Result<Counts>
    requires new_bound { total before.tally + length new.now < most_counted }
    requires reused_bound { before.reused ≤ total before.tally }
    ensures tally_bound { IfOk result (λ c. total c.tally ≤ total before.tally + length new.now) }
    ensures reused_bound_2 { IfOk result (λ c. c.reused ≤ total c.tally) }
{
    let size = entry_size(list);
    let mut tally = before.tally;
    let mut reused = before.reused;
    for (new_entry, old_entry) in new.chunks(size).zip(old.chunks(size)) {
        let rechecked = recheck_one(text, list, old_entry, new_entry);
        tally = tally.count(answer_in(rechecked));
        reused += reused_by(rechecked);
        say_rechecked(rt, tally.entries(), rechecked)?;
    }
    Ok(Counts { tally, reused })
}

// Rechecks what both files have left, as much at a time as the parts hold, which are of one length. A file has fewer than 2^63 bytes, so
// the turns are enough.
fn recheck_turns<F: Read>(
    rt: &impl Print,
    text: &[u8],
    list: &[u8],
    files: &mut Both<F>,
    old: &mut [u8],
    new: &mut [u8],
) -> io::Result<Course>
    requires { (length old.old ≡ length new.old) × (length new.old ≤ 65536) }
    ensures tally_bound { IfOk result (λ c. total c.counts.tally ≤ most_counted) }
    ensures reused_bound { IfOk result (λ c. c.counts.reused ≤ total c.counts.tally) }
    ensures kept { (length old.new ≡ length old.old) × (length new.new ≡ length new.old) }
{
    let mut counts = Counts {
        tally: Tally::none(),
        reused: 0,
    };
    let mut a = 0;
    let mut b = 0;
    for _turn in 0..TURNS {
        a = read_full(&mut files.old, old);
        b = read_full(&mut files.new, new);
        if a != b {
            break;
        }
        counts = recheck_held(rt, text, list, start(old, a), start(new, b), counts)?;
        if b == 0 || b < new.len() {
            break;
        }
    }
    Ok(Course {
        counts: counts,
        old: a,
        new: b,
    })
}

fn say_counts(rt: &impl Print, counts: Counts) -> io::Result<()>
    requires tally_bound { total counts.tally ≤ most_counted }
    requires reused_bound { counts.reused ≤ total counts.tally }
{
    let tally = counts.tally;
    say_tally(rt, tally)?;
    let judged = tally.entries() - counts.reused;
    println!(rt; "{} reused, {judged} judged", counts.reused)
}

// Entries of the longer file have none at their place in the other.
fn say_longer(rt: &impl Print, longer: &[u8], other: &[u8]) -> io::Result<()> {
    say(rt, b"cannot recheck ")?;
    say(rt, longer)?;
    say(rt, b": it is longer than ")?;
    say(rt, other)?;
    say(rt, b"\n")
}

// Where a file of which the last turn got no more than of the other is not at its end, it could not be read.
fn finish<F: Read>(
    rt: &(impl Print + Eprint),
    course: Course,
    files: &mut Both<F>,
    old: &[u8],
    new: &[u8],
) -> io::Result<()>
    requires tally_bound { total course.counts.tally ≤ most_counted }
    requires reused_bound { course.counts.reused ≤ total course.counts.tally }
{
    if course.old <= course.new {
        if let Some(reason) = not_at_end(&mut files.old) {
            return cannot_read(rt, old, reason);
        }
    }
    if course.new <= course.old {
        if let Some(reason) = not_at_end(&mut files.new) {
            return cannot_read(rt, new, reason);
        }
    }
    if course.old < course.new {
        return say_longer(rt, new, old);
    }
    if course.new < course.old {
        return say_longer(rt, old, new);
    }
    say_counts(rt, course.counts)
}

// As many whole entries at a time as the buffers hold, so that none stands across two turns.
fn recheck_entries(
    rt: &(impl Files + Print + Eprint),
    text: &[u8],
    list: &[u8],
    old: &[u8],
    new: &[u8],
) -> io::Result<()> {
    let a = match open_read(rt, old) {
        Ok(file) => file,
        Err(reason) => return cannot_read(rt, old, reason),
    };
    let b = match open_read(rt, new) {
        Ok(file) => file,
        Err(reason) => return cannot_read(rt, new, reason),
    };
    let mut files = Both { old: a, new: b };
    let want = whole_entries(entry_size(list));
    let mut before = [0u8; 65536];
    let mut after = [0u8; 65536];
    let course = recheck_turns(
        rt,
        text,
        list,
        &mut files,
        &mut before[..want],
        &mut after[..want],
    )?;
    finish(rt, course, &mut files, old, new)
}

// Tells of the entries in the files that arguments i and j name, the old ones and the new, against a text that is not refused.
pub fn recheck_files(
    rt: &(impl Files + Env + Print + Eprint),
    text: &[u8],
    list: &[u8],
    i: usize,
    j: usize,
) -> io::Result<()> {
    let mut old = [0u8; MOST_PATH];
    let n = match argument(rt, i, &mut old) {
        Ok(n) => n,
        Err(reason) => return cannot_read(rt, TOO_LONG, reason),
    };
    let mut new = [0u8; MOST_PATH];
    match argument(rt, j, &mut new) {
        Ok(m) => recheck_entries(rt, text, list, &old[..n], &new[..m]),
        Err(reason) => cannot_read(rt, TOO_LONG, reason),
    }
}
