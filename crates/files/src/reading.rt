// Files that arguments name.
ghost use Rattle.std.specs.Prelude.{◌≡◌, ◌≤◌, length, IfOk};
ghost use Rattle.files.specs.Sizes.{true_offset};

use crate::arguments::{MOST_PATH, TOO_LONG, argument};
use crate::say::cannot_read;
use std::env::Env;
use std::io::{Error, ErrorKind, Read};
use std::rt::Files;
use std::{fs, io, str};

// The first bytes of a file, as many as are held of it, and how many it has.
#[derive(Clone, Copy)]
pub struct File<'a> {
    pub bytes: &'a [u8],
    pub size: usize,
}

impl File<'_> {
    // An offset in the file, of one in the bytes that are held of it: their end stands for the file's.
    pub fn true_offset(&self, at: usize) -> usize
        ensures { result ≡ true_offset (length self.now.bytes.now) self.now.size at }
    {
        if at == self.bytes.len() {
            self.size
        } else {
            at
        }
    }
}

// The library names a file by text alone, so a path that is no text is refused as a name that no file has.
pub fn path_text(path: &[u8]) -> io::Result<&str> {
    str::from_utf8(path).map_err(|_| Error::from(ErrorKind::InvalidFilename))
}

// Opens a file for reading.
pub fn open_read<R: Files>(rt: &R, path: &[u8]) -> io::Result<R::File> {
    fs::open(rt, path_text(path)?)
}

// Reads until a room is full, the input ends or a read fails, and answers how many bytes it put at the room's start.
pub fn read_full(input: &mut impl Read, room: &mut [u8]) -> usize
    ensures { result ≤ length room.new }
{
    let mut done = 0;
    // A loop, and no iterator: a read may give fewer bytes than there is room for.
    while done < room.len() {
        match input.read(&mut room[done..]) {
            Ok(n) if 0 < n => done += n,
            _ => return done,
        }
    }
    done
}

// So many reads of 65,536 bytes.
const TURNS: usize = 1 << 47;

// Reads a file to its end and counts on from what is held of it. A file has fewer than 2^63 bytes, so the turns are enough.
fn size_from(file: &mut impl Read, held: usize) -> usize
    requires { held ≤ 65536 }
{
    let mut buffer = [0u8; 65536];
    let mut size = held;
    for _turn in 0..TURNS {
        let got = read_full(file, &mut buffer);
        size += got;
        if got < buffer.len() {
            break;
        }
    }
    size
}

// A read that failed and the file's end both end the reading. Only the end is told by one more read that gives nothing.
pub fn at_end(file: &mut impl Read) -> io::Result<bool> {
    let mut byte = [0u8; 1];
    Ok(file.read(&mut byte)? == 0)
}

// Why a file that was read is not at its end, unless it is.
pub fn not_at_end(file: &mut impl Read) -> Option<Error> {
    match at_end(file) {
        Ok(true) => None,
        Ok(false) => Some(Error::other("it has grown")),
        Err(reason) => Some(reason),
    }
}

// Puts the start of a file into a room, as far as this goes, and answers how many bytes these are and how many the file has.
fn fill(rt: &impl Files, path: &[u8], room: &mut [u8]) -> io::Result<(usize, usize)>
    requires { length room.old ≤ 65536 }
    ensures { IfOk result (λ sizes. sizes.0 ≤ length room.new) }
{
    let mut file = open_read(rt, path)?;
    let held = read_full(&mut file, room);
    let size = size_from(&mut file, held);
    match not_at_end(&mut file) {
        Some(reason) => Err(reason),
        None => Ok((held, size)),
    }
}

fn read_file<'a>(
    rt: &(impl Files + Print + Eprint),
    path: &[u8],
    room: &'a mut [u8],
) -> io::Result<Option<File<'a>>>
    requires { length room.old ≤ 65536 }
{
    match fill(rt, path, room) {
        Ok((held, size)) => Ok(Some(File {
            bytes: &room[..held],
            size,
        })),
        Err(reason) => {
            cannot_read(rt, path, reason)?;
            Ok(None)
        }
    }
}

// Reads the start of the file that an argument names, as far as the room goes, and tells its size; or says why it cannot.
pub fn read_argument<'a>(
    rt: &(impl Files + Env + Print + Eprint),
    i: usize,
    room: &'a mut [u8],
) -> io::Result<Option<File<'a>>>
    requires { length room.old ≤ 65536 }
{
    let mut path = [0u8; MOST_PATH];
    match argument(rt, i, &mut path) {
        Ok(n) => read_file(rt, &path[..n], room),
        Err(reason) => {
            cannot_read(rt, TOO_LONG, reason)?;
            Ok(None)
        }
    }
}
