// What each line does.
ghost use Rattle.std.specs.Prelude.{◌≤◌, length};

use crate::calls;
use crate::inputs::last;
use crate::names::{Command, command_at};
use crate::scan::{byte_at, not_understood, part, rest_of, scan};
use crate::words::{number, put_words};
use std::io;

fn title(rt: &impl Print, name: &[u8]) -> io::Result<()> {
    lines::say(rt, name)?;
    lines::say(rt, b"\n")
}

// Changes bytes of the room: their offset, and words.
fn change(rt: &impl Print, rest: &[u8], room: &mut [u8]) -> io::Result<()> {
    let to = number(rt, rest, 0)?;
    put_words(rt, rest, scan(rest, 0, b' '), room, to)?;
    Ok(())
}

// Prints so many bytes of the room as they stand.
fn show(rt: &impl Print, rest: &[u8], room: &[u8]) -> io::Result<()> {
    let n = number(rt, rest, 0)?;
    lines::say(rt, lines::start(room, n))?;
    lines::say(rt, b"\n")
}

fn put_byte(room: &mut [u8], at: usize, byte: u8) {
    if let Some(place) = room.get_mut(at) {
        *place = byte
    }
}

// Makes the call of a contract for each of the 256 bytes that may stand at an offset of it: the offset, and words.
fn every(rt: &impl Print, file: &[u8], at: usize, room: &mut [u8]) -> io::Result<()>
    requires { at ≤ length file.now }
{
    let mut contract = [0u8; 65536];
    let rest = rest_of(file, at);
    let place = number(rt, rest, 0)?;
    let end = put_words(rt, rest, scan(rest, 0, b' '), &mut contract, 0)?;
    for byte in 0..=255u8 {
        put_byte(&mut contract, place, byte);
        lines::say_hex(rt, byte)?;
        lines::say(rt, b": ")?;
        calls::pact(rt, lines::start(&contract, end), file, at, room)?;
        lines::say(rt, b"\n")?
    }
    Ok(())
}

fn case(
    rt: &impl Print,
    command: Command,
    file: &[u8],
    at: usize,
    room: &mut [u8],
) -> io::Result<()>
    requires { at ≤ length file.now }
{
    lines::say(rt, rest_of(file, at))?;
    lines::say(rt, b": ")?;
    calls::make(rt, command, file, at, room)?;
    lines::say(rt, b"\n")
}

// A line that is no comment, and does not go on with the line above.
fn unknown(rt: &impl Print, file: &[u8], at: usize) -> io::Result<()>
    requires { at ≤ length file.now }
{
    match byte_at(file, at) {
        b'\n' | b' ' | b'#' => Ok(()),
        _ => {
            lines::say(rt, part(file, at, scan(file, at, b'\n')))?;
            not_understood(rt)
        }
    }
}

fn act(rt: &impl Print, command: Command, file: &[u8], at: usize, room: &mut [u8]) -> io::Result<()>
    requires { at ≤ length file.now }
{
    match command {
        Command::Text
        | Command::List
        | Command::Entry
        | Command::Old
        | Command::Earlier
        | Command::Table
        | Command::Answers
        | Command::Room => Ok(()),
        Command::Title => title(rt, rest_of(file, at)),
        Command::Change => change(rt, rest_of(file, at), room),
        Command::Show => show(rt, rest_of(file, at), room),
        Command::Every => every(rt, file, at, room),
        Command::Code | Command::Blocks => calls::make(rt, command, file, at, room),
        _ => case(rt, command, file, at, room),
    }
}

// A step is lent the first bytes of the room.
fn step(rt: &impl Print, file: &[u8], at: usize, room: &mut [u8]) -> io::Result<()>
    requires { at ≤ length file.now }
{
    let n = number(rt, rest_of(file, last(file, at, Command::Room)), 0)?;
    match (room.get_mut(..n), command_at(file, at)) {
        (None, _) => not_understood(rt),
        (_, None) => unknown(rt, file, at),
        (Some(lent), Some(command)) => act(rt, command, file, at, lent),
    }
}

// Goes through a file of cases, line by line.
pub(crate) fn run(rt: &impl Print, file: &[u8]) -> io::Result<()> {
    let mut room = [0u8; 65536];
    let mut at = 0;
    // A loop, and no `split`: a command reads on from its line, so it is told where the line begins.
    while at < file.len() {
        step(rt, file, at, &mut room)?;
        at = scan(file, at, b'\n') + 1;
    }
    Ok(())
}
