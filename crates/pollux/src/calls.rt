// The calls, on the files that arguments 2 to 5 name.
use crate::sizes;
use crate::writing::write_argument;
use blocks::Block;
use files::{File, read_argument};
use lines::{say, start};
use paper::{Agreement, Place};
use std::env::Env;
use std::io;
use std::rt::Files;
use streaming::{Way, judge_file, recheck_files};
use wording::named::say_summary;
use wording::octal;
use wording::refusals::refused;
use wording::say::{Things, say_argument};

// Where a call finds its files among the arguments.
const FIRST: usize = 2;

const SECOND: usize = 3;

const OUT: usize = 4;

const BLOCKS: usize = 4;

const ENTRIES: usize = 4;

const EDITED: usize = 5;

#[derive(Clone, Copy)]
pub enum Call {
    Check,
    Translate,
    Compare,
    Load,
    Judge,
    Explain,
    Summary,
    Recheck,
    Run,
}

// What a text that passed is for.
fn passed(
    rt: &(impl Files + Env + Print + Eprint),
    call: Call,
    text: &[u8],
    list: &[u8],
) -> io::Result<()> {
    match call {
        Call::Judge => judge_file(rt, Way::Judge, text, list, ENTRIES),
        Call::Explain => judge_file(rt, Way::Explain, text, list, ENTRIES),
        Call::Recheck => recheck_files(rt, text, list, ENTRIES, EDITED),
        _ => say(rt, b"passed\n"),
    }
}

// Each call is given its first two files.
fn check(
    rt: &(impl Files + Env + Print + Eprint),
    call: Call,
    text: File,
    list: File,
) -> io::Result<()> {
    match valve::check(text.bytes, list.bytes) {
        Ok(()) => passed(rt, call, text.bytes, list.bytes),
        Err(refusal) => refused(rt, refusal, text, list),
    }
}

fn summarize(rt: &impl Print, text: File, list: File) -> io::Result<()> {
    match valve::summarize(text.bytes, list.bytes) {
        Ok(summary) => say_summary(rt, list.bytes, summary.keys, summary.priority),
        Err(refusal) => refused(rt, refusal, text, list),
    }
}

// The blocks of a translation that passed, into the file that argument 4 names.
fn translated(
    rt: &(impl Files + Env + Print + Eprint),
    instructions: usize,
    buffer: &[u8],
) -> io::Result<()> {
    let blocks = Block::needed(instructions);
    if write_argument(rt, OUT, sizes::first_blocks(buffer, blocks))? {
        let instructions = Things(instructions, "instruction", "instructions");
        let blocks = Things(blocks, "block", "blocks");
        print!(rt; "translated {instructions} into {blocks}: ")?;
        say_argument(rt, OUT)?;
        say(rt, b"\n")?
    }
    Ok(())
}

fn translate(rt: &(impl Files + Env + Print + Eprint), text: File, list: File) -> io::Result<()> {
    let mut buffer = [0u8; 65536];
    match valve::translate(text.bytes, list.bytes, &mut buffer) {
        Ok(n) => translated(rt, n, &buffer),
        Err(refusal) => refused(rt, refusal, text, list),
    }
}

fn agrees(rt: &impl Print) -> io::Result<()> {
    say(
        rt,
        b"agrees: the blocks are the text's translation, its parts in some order, so they say of every entry what the text says\n",
    )
}

fn differs(rt: &impl Print) -> io::Result<()> {
    say(
        rt,
        b"differs: the blocks load, but are not the text's translation in any order of its parts, so they may say something else\n",
    )
}

// With the blocks in the file that argument 4 names.
fn compare(rt: &(impl Files + Env + Print + Eprint), text: File, list: File) -> io::Result<()> {
    let mut room = [0u8; 65536];
    let Some(blocks) = read_argument(rt, BLOCKS, &mut room)? else {
        return Ok(());
    };
    match valve::compare(text.bytes, list.bytes, blocks.bytes) {
        Ok(Agreement::Agrees) => agrees(rt),
        Ok(Agreement::Differs) => differs(rt),
        Err(refusal) => match refusal.place {
            Place::Blocks(_) => refused(rt, refusal, blocks, list),
            _ => refused(rt, refusal, text, list),
        },
    }
}

// What blocks that loaded are for.
fn loaded(
    rt: &(impl Files + Env + Print + Eprint),
    call: Call,
    instructions: usize,
    list: &[u8],
    blocks: &[u8],
) -> io::Result<()> {
    if let Call::Run = call {
        judge_file(rt, Way::Run, blocks, list, ENTRIES)
    } else {
        let instructions = Things(instructions, "instruction", "instructions");
        println!(rt; "loaded {instructions}")
    }
}

fn load(
    rt: &(impl Files + Env + Print + Eprint),
    call: Call,
    list: File,
    blocks: File,
) -> io::Result<()> {
    match valve::load(list.bytes, blocks.bytes) {
        Ok(n) => loaded(rt, call, n, list.bytes, blocks.bytes),
        Err(refusal) => refused(rt, refusal, blocks, list),
    }
}

fn answer_on(
    rt: &(impl Files + Env + Print + Eprint),
    call: Call,
    first: File,
    second: File,
) -> io::Result<()> {
    match call {
        Call::Check | Call::Judge | Call::Explain | Call::Recheck => check(rt, call, first, second),
        Call::Summary => summarize(rt, first, second),
        Call::Translate => translate(rt, first, second),
        Call::Compare => compare(rt, first, second),
        Call::Load | Call::Run => load(rt, call, first, second),
    }
}

// Reads the first two files, TEXT and KEYS or KEYS and BLOCKS, and answers the call. A room has at least one byte more than a call
// takes, so that what is too long is seen to be.
pub(crate) fn answer(rt: &(impl Files + Env + Print + Eprint), call: Call) -> io::Result<()> {
    let mut first = [0u8; 4097];
    let mut second = [0u8; 65536];
    let Some(first) = read_argument(rt, FIRST, &mut first)? else {
        return Ok(());
    };
    let Some(second) = read_argument(rt, SECOND, &mut second)? else {
        return Ok(());
    };
    answer_on(rt, call, first, second)
}

// In place of the list, for calls that take none.
const NO_LIST: File<'static> = File {
    bytes: b"",
    size: 0,
};

// The longest print.
const MOST_PRINT: usize = 4096;

// The count of its bytes stands before a print, so that no print is taken for another answer.
fn print_text(rt: &impl Print, text: File) -> io::Result<()> {
    let mut buffer = [0u8; MOST_PRINT];
    match valve::print(text.bytes, &mut buffer) {
        Ok(n) => {
            println!(rt; "printed {}:", Things(n, "byte", "bytes"))?;
            say(rt, start(&buffer, n))?;
            say(rt, b"\n")
        }
        Err(refusal) => refused(rt, refusal, text, NO_LIST),
    }
}

// Reads TEXT, and shows it in house style.
pub(crate) fn print(rt: &(impl Files + Env + Print + Eprint)) -> io::Result<()> {
    let mut room = [0u8; 4097];
    match read_argument(rt, FIRST, &mut room)? {
        Some(text) => print_text(rt, text),
        None => Ok(()),
    }
}

// What the pass made of a text, into the file that argument 3 names.
fn fixed(rt: &(impl Files + Env + Print + Eprint), text: &[u8], made: &[u8]) -> io::Result<()> {
    if write_argument(rt, SECOND, made)? {
        octal::say_fixed(rt, text, made)?;
        say_argument(rt, SECOND)?;
        say(rt, b"\n")?;
        octal::say_changes(rt, text, made)?
    }
    Ok(())
}

// What the pass makes is never longer than a text, so there is always room.
fn fix_text(rt: &(impl Files + Env + Print + Eprint), text: File) -> io::Result<()> {
    let mut buffer = [0u8; 4096];
    match valve::fix_octal(text.bytes, &mut buffer) {
        Ok(n) => fixed(rt, text.bytes, start(&buffer, n)),
        Err(refusal) => refused(rt, refusal, text, NO_LIST),
    }
}

// Reads TEXT, and writes it to OUT with its octal numerals in hex; OUT may be TEXT itself.
pub(crate) fn fix_octal(rt: &(impl Files + Env + Print + Eprint)) -> io::Result<()> {
    let mut room = [0u8; 4097];
    match read_argument(rt, FIRST, &mut room)? {
        Some(text) => fix_text(rt, text),
        None => Ok(()),
    }
}
