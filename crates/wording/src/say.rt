// Numbers of things, arguments, and what is said of a file that cannot be written.
use files::{MOST_PATH, argument, cannot};
use lines::say;
use std::env::Env;
use std::io::Error;
use std::{fmt, io};

// A number of things, with the word for one and the word for more.
#[derive(Clone, Copy)]
pub struct Things<'a>(pub usize, pub &'a str, pub &'a str);

impl fmt::Display for Things<'_> {
    fn fmt<W: fmt::Write>(&self, f: &mut fmt::Formatter<W>) -> fmt::Result {
        let Things(n, one, more) = *self;
        let word = if n == 1 { one } else { more };
        write!(f, "{n} {word}")
    }
}

// Says an argument as it was given.
pub fn say_argument(rt: &(impl Env + Print), i: usize) -> io::Result<()> {
    let mut room = [0u8; MOST_PATH];
    match argument(rt, i, &mut room) {
        Ok(n) => say(rt, &room[..n]),
        // There is none, or it is no path of the system.
        Err(_) => Ok(()),
    }
}

// Says that a file cannot be written.
pub fn cannot_write(rt: &(impl Print + Eprint), path: &[u8], reason: Error) -> io::Result<()> {
    cannot(rt, b"cannot write ", path, path, reason)
}

// Says that a file cannot be written because of another.
pub fn cannot_write_by(
    rt: &(impl Print + Eprint),
    path: &[u8],
    other: &[u8],
    reason: Error,
) -> io::Result<()> {
    cannot(rt, b"cannot write ", path, other, reason)
}
