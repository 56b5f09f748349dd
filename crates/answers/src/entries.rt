// A run of many entries by its third input: how many bytes there are for answers in four bytes, these bytes as they stand before the call, and the
// entries end to end.
ghost use Rattle.std.specs.Prelude.{◌≤◌, length};

use crate::calls;
use crate::changes::malformed;
use std::io;

// What stands before the bytes for answers.
const HEAD: usize = 4;

// No input is longer, so there is room for all bytes of one.
const ROOM: usize = 65_536;

// Runs the entries, and says the sum of all answers as they stand after it.
fn judge(
    rt: &impl Print,
    list: &[u8],
    blocks: &[u8],
    entries: &[u8],
    answers: &mut [u8],
) -> io::Result<()> {
    lines::say_running_all(rt, valve::run_all(list, blocks, entries, answers))?;
    calls::say_sum(rt, answers)
}

// Fills the start of a room.
fn fill_start(room: &mut [u8], bytes: &[u8])
    requires { length bytes.now ≤ length room.old }
{
    let n = bytes.len();
    room[..n].copy_from_slice(bytes)
}

// The answers are written while the entries are read, which stand in the same input: so they are copied first.
fn judge_apart(
    rt: &impl Print,
    list: &[u8],
    blocks: &[u8],
    entries: &[u8],
    before: &[u8],
) -> io::Result<()> {
    let before = lines::start(before, ROOM);
    let n = before.len();
    let mut answers = [0u8; ROOM];
    fill_start(&mut answers, before);
    judge(rt, list, blocks, entries, &mut answers[..n])
}

// Runs the entries, unless the input is shorter than what stands before the answers, or than the answers.
pub(crate) fn run_all(rt: &impl Print, list: &[u8], blocks: &[u8], third: &[u8]) -> io::Result<()> {
    if third.len() < HEAD {
        return malformed(rt);
    }
    let size = number::word(third, 0) as usize;
    let rest = &third[HEAD..];
    if rest.len() < size {
        return malformed(rt);
    }
    judge_apart(rt, list, blocks, &rest[size..], lines::start(rest, size))
}
