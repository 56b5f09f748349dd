// Document 01's judgements and both sides of every limit, through the public calls. The cases stand in crates/cases/stdin, whose head
// says how they are written; each prints its name and what it got. What it must get stands in crates/cases/stdout.
#![tactic(auto)]

mod calls;
mod commands;
mod inputs;
mod names;
mod scan;
mod words;

use files::read_full;
use std::io;

// Room for the file, which has fewer bytes.
const FILE: usize = 131_072;

fn main(rt: HostRuntime) -> io::Result<()> {
    let mut file = [0u8; FILE];
    let n = read_full(&mut rt.reader(), &mut file);
    if n == file.len() {
        scan::not_understood(&rt)?;
    }
    commands::run(&rt, lines::start(&file, n))
}
