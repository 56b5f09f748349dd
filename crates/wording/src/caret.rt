// The line that a place or a stretch of a text stands in, with carets under it.
ghost use Rattle.std.specs.Prelude.{◌+◌, ◌≤◌, ◌≡◌, length};
ghost use Rattle.wording.specs.Lines.{seen_at, LineOf, Window, shown_as, carets};

use lines::{say, start};
use spelling::runs::{Run, run_end};
use std::io;

// A line of a text: its number, counted from 1, and its bytes, from one offset up to another.
#[derive(Clone, Copy)]
struct Line {
    number: usize,
    from: usize,
    to: usize,
}

// What is shown of a line.
#[derive(Clone, Copy)]
struct Stretch {
    from: usize,
    to: usize,
}

// Where the caret of a place stands: at the text's end it is after the last line, and not on an empty line below it.
fn seen_at(text: &[u8], at: usize) -> usize
    ensures { (result ≡ seen_at text.now at) × (result ≤ length text.now) }
{
    let n = text.len();
    if at < n {
        return at;
    }
    match text {
        [.., b'\n'] => n - 1,
        _ => n,
    }
}

fn line_of(text: &[u8], at: usize) -> Line
    requires { at ≤ length text.now }
    ensures { LineOf text.now at result }
{
    let mut number = 1;
    let mut from = 0;
    let mut to = run_end(text, 0, Run::Line);
    // A loop, and no `split`: a line is answered by its offsets.
    while to < at {
        number += 1;
        from = to + 1;
        to = run_end(text, from, Run::Line);
    }
    Line { number, from, to }
}

// How much of a long line is shown, and how much of it before the place.
const COLUMNS: usize = 100;

const BEFORE: usize = 50;

fn window_start(line: Line, at: usize) -> usize
    requires { (line.from ≤ at) × (at ≤ line.to) }
    ensures { (line.from ≤ result) × (result ≤ at) × (at ≤ result + 100) }
{
    if line.to - line.from <= COLUMNS {
        return line.from;
    }
    if at - line.from <= BEFORE {
        line.from
    } else {
        at - BEFORE
    }
}

// What is shown of a line: all of it, or 100 columns about the place.
fn window(line: Line, at: usize) -> Stretch
    requires { (line.from ≤ at) × (at ≤ line.to) }
    ensures { Window line at result }
{
    let from = window_start(line, at);
    if line.to - from <= COLUMNS {
        return Stretch { from, to: line.to };
    }
    Stretch {
        from,
        to: from + COLUMNS,
    }
}

// One column for each byte, so that the caret stands right.
fn shown_as(byte: u8) -> u8
    ensures { result ≡ shown_as byte }
{
    match byte {
        b'\t' => b' ',
        b' '..=b'~' => byte,
        _ => b'?',
    }
}

fn say_bytes(rt: &impl Print, bytes: &[u8]) -> io::Result<()> {
    for byte in bytes {
        say(rt, &[shown_as(*byte)])?;
    }
    Ok(())
}

fn say_line(rt: &impl Print, text: &[u8], line: Line, shown: Stretch) -> io::Result<()>
    requires { (shown.from ≤ shown.to) × (shown.to ≤ length text.now) }
{
    if line.from < shown.from {
        say(rt, b"... ")?
    } else {
        say(rt, b"    ")?
    }
    say_bytes(rt, &text[shown.from..shown.to])?;
    if shown.to < line.to {
        say(rt, b" ...\n")
    } else {
        say(rt, b"\n")
    }
}

// How many columns are marked from an offset up to another, on a line that is shown up to its `end`; a place has one.
fn carets_under(from: usize, to: usize, end: usize) -> usize
    ensures { result ≡ carets from to end }
{
    to.min(end).saturating_sub(from).max(1)
}

// Which lines a stretch stands in.
fn say_lines(rt: &impl Print, first: usize, last: usize) -> io::Result<()> {
    if first == last {
        println!(rt; "line {first}:")
    } else {
        println!(rt; "lines {first} to {last}, the first:")
    }
}

// Shows the line of a text that a stretch begins in, with carets under what the line has of the stretch. A place is a stretch that ends
// where it begins.
pub fn show(rt: &impl Print, text: &[u8], from: usize, to: usize) -> io::Result<()> {
    let first = seen_at(text, from);
    let past = seen_at(text, to);
    let line = line_of(text, first);
    let last = line_of(text, past);
    let shown = window(line, first);
    say_lines(rt, line.number, last.number)?;
    say_line(rt, text, line, shown)?;
    let blanks = [b' '; 104];
    say(rt, start(&blanks, 4 + (first - shown.from)))?;
    let marks = [b'^'; COLUMNS];
    say(rt, start(&marks, carets_under(first, past, shown.to)))?;
    say(rt, b"\n")
}
