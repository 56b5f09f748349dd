// What is said of a file that cannot be read or written.
use lines::{say, start};
use std::io::{Cursor, Error, Write};
use std::{io, str};

// No reason of the system is longer.
const MOST_WORDS: usize = 256;

// The library puts a number behind the system's words.
const NUMBER: &str = " (os error ";

// The system's words for a reason, written at the start of a room.
fn words_of(reason: Error, room: &mut [u8]) -> &str {
    let mut written = Cursor::new(&mut room[..]);
    let _ = write!(written, "{reason}");
    let n = written.position() as usize;
    let Ok(text) = str::from_utf8(start(room, n)) else {
        return "";
    };
    match text.split_once(NUMBER) {
        Some((words, _)) => words,
        None => text,
    }
}

// A path is told as it is where it is text, and else with its other bytes written out.
fn tell_reason(rt: &impl Eprint, about: &[u8], reason: Error) -> io::Result<()> {
    let mut room = [0u8; MOST_WORDS];
    let words = words_of(reason, &mut room);
    match str::from_utf8(about) {
        Ok(text) => eprintln!(rt; "{text}: {words}"),
        Err(_) => eprintln!(rt; "{}: {words}", about.escape_ascii()),
    }
}

// The system's reason, with what it is about, goes to standard error, before anything is said. Where that takes nothing, as when it is
// closed, what is said stands all the same.
pub fn cannot(
    rt: &(impl Print + Eprint),
    what: &[u8],
    path: &[u8],
    about: &[u8],
    reason: Error,
) -> io::Result<()> {
    let _ = tell_reason(rt, about, reason);
    say(rt, what)?;
    say(rt, path)?;
    say(rt, b"\n")
}

// Says that a file cannot be read.
pub fn cannot_read(rt: &(impl Print + Eprint), path: &[u8], reason: Error) -> io::Result<()> {
    cannot(rt, b"cannot read ", path, path, reason)
}
