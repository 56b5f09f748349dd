// A file that is written whole or not at all: its bytes go to a file beside it, OUT.part, which takes its name once they are all there.
// A link or a device must stay what it is, so what a link leads to, and a device, is written in place.
use files::{MOST_PATH, TOO_LONG, argument, name_too_long, path_text};
use lines::start;
use std::env::Env;
use std::fs::{OpenFile, OpenOptions};
use std::io::{Error, ErrorKind, Seek, SeekFrom, Write};
use std::rt::Files;
use std::{fs, io};
use wording::say::{cannot_write, cannot_write_by};

// What stands behind a path in that of the file beside it.
const PART: &[u8] = b".part";

// The longest path that leaves room for this and for C's 0 after it.
const LONGEST: usize = MOST_PATH - PART.len() - 1;

fn is_link(rt: &impl Files, path: &str) -> bool {
    fs::symlink_metadata(rt, path).is_ok_and(|found| found.is_symlink())
}

// Only a regular file can be cut to a length, here to the one that it has.
fn is_regular(file: &mut (impl Seek + OpenFile)) -> bool {
    file.seek(SeekFrom::End(0))
        .is_ok_and(|end| file.set_len(end).is_ok())
}

fn unwritten(rt: &(impl Print + Eprint), path: &[u8], reason: Error) -> io::Result<bool> {
    cannot_write(rt, path, reason)?;
    Ok(false)
}

// Only what is on the disk is sure to have had room there.
fn store(file: &mut (impl Write + OpenFile), bytes: &[u8]) -> io::Result<()> {
    file.write_all(bytes)?;
    file.sync_all()
}

// What cannot be synced lies on no disk.
fn synced(file: &impl OpenFile) -> io::Result<()> {
    match file.sync_all() {
        Err(reason) if reason.kind() == ErrorKind::InvalidInput => Ok(()),
        done => done,
    }
}

// It is written first, where it stands open: to ask what it is moves there. A device has no disk.
fn put(file: &mut (impl Write + Seek + OpenFile), bytes: &[u8]) -> io::Result<()> {
    file.write_all(bytes)?;
    if is_regular(file) {
        return synced(file);
    }
    Ok(())
}

fn write_in_place(
    rt: &(impl Print + Eprint),
    file: &mut (impl Write + Seek + OpenFile),
    path: &str,
    bytes: &[u8],
) -> io::Result<bool> {
    match put(file, bytes) {
        Ok(()) => Ok(true),
        Err(reason) => {
            let told = unwritten(rt, path.as_bytes(), reason);
            // Rather nothing than half of it, nor what was told, where the file took the place of a closed output. A device cannot be cut,
            // nor need it.
            let _ = file.set_len(0);
            told
        }
    }
}

fn write_link(rt: &(impl Files + Print + Eprint), path: &str, bytes: &[u8]) -> io::Result<bool> {
    match fs::create(rt, path) {
        Ok(mut file) => write_in_place(rt, &mut file, path, bytes),
        Err(reason) => unwritten(rt, path.as_bytes(), reason),
    }
}

// Stores the bytes in a file beside another, which is closed then, and gives it the other's name.
fn store_beside(
    rt: &impl Files,
    path: &str,
    part: &str,
    file: impl Write + OpenFile + Drop,
    bytes: &[u8],
) -> io::Result<()> {
    let mut file = file;
    store(&mut file, bytes)?;
    drop(file);
    fs::rename(rt, part, path)
}

fn replace(
    rt: &(impl Files + Print + Eprint),
    path: &str,
    part: &str,
    bytes: &[u8],
) -> io::Result<bool> {
    let file = match OpenOptions::new()
        .write(true)
        .create_new(true)
        .open(rt, part)
    {
        Ok(file) => file,
        Err(reason) => {
            cannot_write_by(rt, path.as_bytes(), part.as_bytes(), reason)?;
            return Ok(false);
        }
    };
    match store_beside(rt, path, part, file, bytes) {
        Ok(()) => Ok(true),
        Err(reason) => {
            let _ = fs::remove_file(rt, part);
            unwritten(rt, path.as_bytes(), reason)
        }
    }
}

// A file that may not be written may not be replaced either, so it is opened first.
fn write_or_replace(
    rt: &(impl Files + Print + Eprint),
    path: &str,
    part: &str,
    bytes: &[u8],
) -> io::Result<bool> {
    match OpenOptions::new().append(true).open(rt, path) {
        Ok(mut file) => {
            if !is_regular(&mut file) {
                return write_in_place(rt, &mut file, path, bytes);
            }
        }
        Err(reason) => {
            if reason.kind() != ErrorKind::NotFound {
                return unwritten(rt, path.as_bytes(), reason);
            }
        }
    }
    replace(rt, path, part, bytes)
}

// By the file's path and the path beside it, which is text where the first is.
fn write_file(
    rt: &(impl Files + Print + Eprint),
    path: &[u8],
    part: &[u8],
    bytes: &[u8],
) -> io::Result<bool> {
    let name = match path_text(path) {
        Ok(name) => name,
        Err(reason) => return unwritten(rt, path, reason),
    };
    let beside = match path_text(part) {
        Ok(beside) => beside,
        Err(reason) => return unwritten(rt, path, reason),
    };
    if is_link(rt, name) {
        return write_link(rt, name, bytes);
    }
    write_or_replace(rt, name, beside, bytes)
}

// Writes the file that an argument names, or says why it cannot.
pub(crate) fn write_argument(
    rt: &(impl Files + Env + Print + Eprint),
    i: usize,
    bytes: &[u8],
) -> io::Result<bool> {
    let mut path = [0u8; MOST_PATH];
    let n = match argument(rt, i, &mut path) {
        Ok(n) => n,
        Err(reason) => return unwritten(rt, TOO_LONG, reason),
    };
    if LONGEST < n {
        return unwritten(rt, TOO_LONG, name_too_long());
    }
    let end = n + PART.len();
    path[n..end].copy_from_slice(PART);
    write_file(rt, start(&path, n), start(&path, end), bytes)
}
