// Counts the entries of a file by the parts of a text: `count TEXT KEYS ENTRIES`, in the lines of the crate `report`.
#![tactic(auto)]

use std::io;
use std::io::IsTerminal;

const TEXT: usize = 1;

const KEYS: usize = 2;

const ENTRIES: usize = 3;

fn main(rt: HostRuntime) -> io::Result<()> {
    if files::argument_count(&rt) == 4 {
        let watched = rt.stderr().is_terminal();
        report::count_files(&rt, watched, TEXT, KEYS, ENTRIES)
    } else {
        lines::say(&rt, b"usage: count TEXT KEYS ENTRIES\n")
    }
}
