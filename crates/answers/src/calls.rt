// A call by its number, and its answer as a line.
ghost use Rattle.std.specs.Prelude.{◌≡◌};
ghost use Rattle.paper.specs.Calls.{translate_buffer, print_buffer};
ghost use Rattle.paper.specs.Fixing.{fix_buffer};
ghost use Rattle.answers.specs.Calls.{after_call, written};

use crate::{adler, changes, entries, framing, tables};
use paper::Explanation;
use std::io;

// The calls, by the first byte of a request.
const READ: u8 = 1;

const CHECK: u8 = 2;

const JUDGE: u8 = 3;

const TRANSLATE: u8 = 4;

const LOAD: u8 = 5;

const RUN: u8 = 6;

const PRINT: u8 = 7;

const EXPLAIN: u8 = 8;

const SUMMARIZE: u8 = 9;

const RECHECK: u8 = 10;

const FIX_OCTAL: u8 = 11;

const PACT: u8 = 12;

const COMPARE: u8 = 13;

const COUNT: u8 = 14;

const RUN_ALL: u8 = 15;

// The sum of some bytes, after what a call answered.
pub(crate) fn say_sum(rt: &impl Print, bytes: &[u8]) -> io::Result<()> {
    lines::say(rt, b" ")?;
    lines::say_number(rt, adler::adler_of(bytes))
}

// What broke for an entry, with the sum of the piece that is shown.
fn explain(rt: &impl Print, text: &[u8], list: &[u8], entry: &[u8]) -> io::Result<()> {
    let why = valve::reason(text, list, entry);
    lines::say_explanation(rt, why)?;
    match why {
        Explanation::Part(_, _, _, _) => say_sum(rt, valve::text_piece(text, why)),
        Explanation::Key(_, _, _) => say_sum(rt, valve::list_piece(list, why)),
        Explanation::Nothing(_) => Ok(()),
    }
}

// What a text names, with how many keys these are.
fn summarize(rt: &impl Print, text: &[u8], list: &[u8]) -> io::Result<()> {
    let named = valve::summarize(text, list);
    lines::say_summarizing(rt, named)?;
    let Ok(summary) = named else {
        return Ok(());
    };
    lines::say(rt, b" ")?;
    lines::say_number(rt, u64::from(valve::count_keys(summary.keys)))
}

// The entries by what the text says of each, and a number for each of its parts.
fn count(rt: &impl Print, text: &[u8], list: &[u8], entries: &[u8]) -> io::Result<()> {
    let mut numbers = [0u64; parts::MOST_PARTS];
    let counting = valve::count(text, list, entries, &mut numbers);
    lines::say_counting(rt, counting, &numbers)
}

// A call that only reads.
fn reading_call(
    rt: &impl Print,
    call: u8,
    first: &[u8],
    second: &[u8],
    third: &[u8],
) -> io::Result<()> {
    match call {
        READ => lines::say_done(rt, b"read", valve::read(first)),
        CHECK => lines::say_checking(rt, valve::check(first, second)),
        JUDGE => lines::say_judgement(rt, valve::judge(first, second, third)),
        LOAD => lines::say_done(rt, b"loaded", valve::load(first, second)),
        RUN => lines::say_running(rt, valve::run(first, second, third)),
        EXPLAIN => explain(rt, first, second, third),
        SUMMARIZE => summarize(rt, first, second),
        RECHECK => changes::recheck(rt, first, second, third),
        COMPARE => lines::say_agreement(rt, valve::compare(first, second, third)),
        COUNT => count(rt, first, second, third),
        RUN_ALL => entries::run_all(rt, first, second, third),
        _ => lines::say(rt, b"unknown"),
    }
}

// A translation, a print or a pass over a text on file, with the sum of the whole buffer as it stands after it.
fn translate(rt: &impl Print, text: &[u8], list: &[u8], buffer: &mut [u8]) -> io::Result<()>
    ensures { buffer.new ≡ translate_buffer text.now list.now buffer.old }
{
    lines::say_done(rt, b"translated", valve::translate(text, list, buffer))?;
    say_sum(rt, buffer)
}

fn print(rt: &impl Print, text: &[u8], buffer: &mut [u8]) -> io::Result<()>
    ensures { buffer.new ≡ print_buffer text.now buffer.old }
{
    lines::say_done(rt, b"printed", valve::print(text, buffer))?;
    say_sum(rt, buffer)
}

fn fix_octal(rt: &impl Print, text: &[u8], buffer: &mut [u8]) -> io::Result<()>
    ensures { buffer.new ≡ fix_buffer text.now buffer.old }
{
    lines::say_done(rt, b"fixed", valve::fix_octal(text, buffer))?;
    say_sum(rt, buffer)
}

// A call that writes into the buffer.
fn writing_call(
    rt: &impl Print,
    call: u8,
    first: &[u8],
    second: &[u8],
    buffer: &mut [u8],
) -> io::Result<()>
    ensures { buffer.new ≡ written call first.now second.now buffer.old }
{
    match call {
        TRANSLATE => translate(rt, first, second, buffer),
        PRINT => print(rt, first, buffer),
        FIX_OCTAL => fix_octal(rt, first, buffer),
        PACT => tables::pact(rt, first, second, buffer),
        _ => reading_call(rt, call, first, second, buffer),
    }
}

// Makes a call, and writes its answer as a line. The third input is the first n bytes of what is lent for it.
pub(crate) fn answer(
    rt: &impl Print,
    call: u8,
    first: &[u8],
    second: &[u8],
    third: &mut [u8],
    n: usize,
) -> io::Result<()>
    ensures { third.new ≡ after_call call first.now second.now third.old n }
{
    if n <= third.len() {
        writing_call(rt, call, first, second, &mut third[..n])?;
        lines::say(rt, b"\n")?
    }
    Ok(())
}
