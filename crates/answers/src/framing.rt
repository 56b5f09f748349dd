// One input of a request: its length in four bytes, then its bytes.
ghost use Rattle.std.specs.Prelude.{◌≤◌, ◌<◌, ◌≡◌, true, length, IfOk};

use files::read_full;
use std::io;
use std::io::Read;

// Why an input was not taken: it was longer than its room, or the input of all ended within it.
#[derive(Clone, Copy, PartialEq, Eq)]
pub enum Untaken {
    TooLong,
    Cut,
}

// Says that an input was too long; another request may follow.
pub(crate) fn too_long(rt: &impl Print) -> io::Result<bool>
    ensures { IfOk result (λ more. more ≡ true) }
{
    lines::say(rt, b"too long\n")?;
    Ok(true)
}

// Fills all of a part, or says that the input ended before.
fn fill(input: &mut impl Read, part: &mut [u8]) -> bool {
    read_full(input, part) == part.len()
}

// The same of a room's first bytes.
fn fill_start(input: &mut impl Read, room: &mut [u8], n: usize) -> bool
    requires { n ≤ length room.old }
{
    fill(input, &mut room[..n])
}

// Passes over a number of bytes, or says that the input ended before.
fn pass_over(input: &mut impl Read, size: usize, room: &mut [u8]) -> bool
    requires { 0 < length room.old }
{
    let mut left = size;
    // A loop, and no chunks: nothing of the input is here to be cut; what is left of it falls by what is read.
    while room.len() < left {
        if !fill(input, room) {
            return false;
        }
        left -= room.len();
    }
    fill_start(input, room, left)
}

// Reads one input of a request into a room; one that is longer than the room is passed over.
pub(crate) fn take_input(input: &mut impl Read, room: &mut [u8]) -> Result<usize, Untaken>
    requires { 0 < length room.old }
{
    let mut head = [0u8; 4];
    if !fill(input, &mut head) {
        return Err(Untaken::Cut);
    }
    let size = number::word(&head, 0) as usize;
    if size <= room.len() {
        if fill_start(input, room, size) {
            return Ok(size);
        }
        return Err(Untaken::Cut);
    }
    if pass_over(input, size, room) {
        return Err(Untaken::TooLong);
    }
    Err(Untaken::Cut)
}
