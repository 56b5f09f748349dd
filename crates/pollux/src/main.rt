// Polluxvalve for people: checks, prints, rids of octal, takes in contracts, sums up, translates, compares, loads, judges, explains,
// rechecks, runs and counts what stands in files, and tells the answer in words.
//
// Each answer is a line on standard output whose first word is passed, translated, loaded, printed, fixed, drafted, named, agrees, differs,
// accepted, violated, refused, cannot or usage; the script `pollux` at the root makes an exit status of it. A refusal of a text is followed by the line and a caret under
// the place, what broke for an entry by the line and carets under the part, or by the key's name. A run tells how many steps all entries took.
// A count has the lines of the crate `report`, and a refusal there begins with refusal.
// Files may have any length: a place that is a length is the file's true length, and entries stream through one buffer. No output file is
// touched unless the whole call passes, and it is written whole or not at all.
#![tactic(auto)]

mod calls;
mod pacts;
mod sizes;
mod tables;
mod writing;

use calls::{Call, answer, fix_octal, print};
use files::{argument, argument_count};
use pacts::pact;
use std::env::Env;
use std::io;
use std::io::IsTerminal;
use std::rt::Files;

// Where a count finds its files among the arguments.
const FIRST: usize = 2;

const SECOND: usize = 3;

const THIRD: usize = 4;

fn usage(rt: &impl Print) -> io::Result<()> {
    lines::say(
        rt,
        b"usage: pollux check TEXT KEYS
       pollux print TEXT
       pollux fix-octal TEXT OUT
       pollux pact CONTRACT TABLE KEYS OUT
       pollux translate TEXT KEYS OUT
       pollux compare TEXT KEYS BLOCKS
       pollux load KEYS BLOCKS
       pollux judge TEXT KEYS ENTRIES
       pollux explain TEXT KEYS ENTRIES
       pollux summary TEXT KEYS
       pollux recheck TEXT KEYS OLD NEW
       pollux run KEYS BLOCKS ENTRIES
       pollux count TEXT KEYS ENTRIES
",
    )
}

// A call by its name and how many files it takes. A long count shows how far it has come where somebody watches.
fn call(
    rt: &(impl Files + Env + Print + Eprint),
    watched: bool,
    name: &[u8],
    files: usize,
) -> io::Result<()> {
    match (name, files) {
        (b"print", 1) => print(rt),
        (b"check", 2) => answer(rt, Call::Check),
        (b"summary", 2) => answer(rt, Call::Summary),
        (b"fix-octal", 2) => fix_octal(rt),
        (b"load", 2) => answer(rt, Call::Load),
        (b"translate", 3) => answer(rt, Call::Translate),
        (b"compare", 3) => answer(rt, Call::Compare),
        (b"judge", 3) => answer(rt, Call::Judge),
        (b"explain", 3) => answer(rt, Call::Explain),
        (b"run", 3) => answer(rt, Call::Run),
        (b"count", 3) => report::count_files(rt, watched, FIRST, SECOND, THIRD),
        (b"recheck", 4) => answer(rt, Call::Recheck),
        (b"pact", 4) => pact(rt),
        _ => usage(rt),
    }
}

fn main(rt: HostRuntime) -> io::Result<()> {
    let mut room = [0u8; 16];
    // No call has a longer name.
    let name = match argument(&rt, 1, &mut room) {
        Ok(n) => &room[..n],
        Err(_) => b"",
    };
    let files = argument_count(&rt).saturating_sub(2);
    call(&rt, rt.stderr().is_terminal(), name, files)
}
