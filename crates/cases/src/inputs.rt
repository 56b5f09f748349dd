// The inputs of a call: each is what the last line of its kind gives.
ghost use Rattle.std.specs.Prelude.{◌≤◌, ◌≡◌, cond, length, IfOk};
ghost use Rattle.cases.specs.Inputs.{input_at, last_line, input_bytes};
ghost use Rattle.cases.specs.Words.{Put};

use crate::names::{Command, command_at};
use crate::scan::{byte_at, scan};
use crate::words::{Stretch, put, put_words};
use std::io;

// Which input a line gives: a text after a colon, or that of its name.
fn input_at(file: &[u8], at: usize) -> Option<Command>
    requires { at ≤ length file.now }
    ensures { result ≡ input_at file.now at }
{
    if byte_at(file, scan(file, at, b':')) == b':' {
        return Some(Command::Text);
    }
    command_at(file, at)
}

// An offset where something holds, and else another.
fn picked(holds: bool, at: usize, other: usize) -> usize
    ensures { result ≡ cond holds at other }
{
    if holds { at } else { other }
}

// Where the last line up to an offset begins that gives an input; the file's end where there is none.
pub(crate) fn last(file: &[u8], to: usize, input: Command) -> usize
    ensures { (result ≡ last_line file.now to input) × (result ≤ length file.now) }
{
    let mut found = file.len();
    let mut at = 0;
    // A loop, and no `split`: what is answered is where a line begins.
    while at < file.len() {
        if to < at {
            return found;
        }
        found = picked(input_at(file, at) == Some(input), at, found);
        at = scan(file, at, b'\n') + 1;
    }
    found
}

// Puts an input into a room: what stands after a colon as it is, or the bytes of words.
pub(crate) fn put_input(
    rt: &impl Print,
    file: &[u8],
    at: usize,
    input: Command,
    room: &mut [u8],
    to: usize,
) -> io::Result<usize>
    ensures written { IfOk result (λ end. Put room.old to (input_bytes file.now at input) room.new end) }
    ensures kept { length room.new ≡ length room.old }
{
    let end = scan(file, last(file, at, input), b':');
    if byte_at(file, end) == b':' {
        let text = Stretch {
            s: file,
            from: end + 2,
            to: scan(file, end, b'\n'),
        };
        return put(rt, text, 1, room, to);
    }
    put_words(rt, file, end, room, to)
}
