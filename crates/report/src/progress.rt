// How far a long count has come, for who watches: on standard error, if that is a terminal. What it takes is only shown, so the count goes on
// where it takes nothing.
use std::io;

// Told again after so many entries.
const STEP: usize = 10_000;

fn write(rt: &impl Eprint, entries: usize) -> io::Result<()> {
    eprint!(rt; "\rcounted {entries} entries")
}

// So many entries are counted, and so many were before.
pub(crate) fn show(rt: &impl Eprint, watched: bool, before: usize, entries: usize) {
    if before / STEP < entries / STEP {
        if watched {
            let _ = write(rt, entries);
        }
    }
}

// Leaves an empty line for what is said.
pub(crate) fn clear(rt: &impl Eprint, watched: bool) {
    if watched {
        let _ = eprint!(rt; "\r                        \r");
    }
}
