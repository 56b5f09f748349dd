// A Pact contract into a text: CONTRACT is bytes, TABLE decimal numbers, a line each, KEYS names the contract's inputs, and OUT is the text.
use crate::tables::read_table;
use crate::writing::write_argument;
use files::{File, read_argument};
use keys::KeyRecord;
use lines::{say, start};
use paper::{Place, Refusal, refused};
use std::env::Env;
use std::io;
use std::rt::Files;
use wording::caret;
use wording::contracts::say_why;
use wording::reasons::say_reason;
use wording::say::{Things, say_argument};

// Where the call finds its files among the arguments.
const CONTRACT: usize = 2;

const TABLE: usize = 3;

const NAMES: usize = 4;

const OUT: usize = 5;

fn drafted(rt: &(impl Files + Env + Print + Eprint), text: &[u8]) -> io::Result<()> {
    if write_argument(rt, OUT, text)? {
        print!(rt; "drafted {}: ", Things(text.len(), "byte", "bytes"))?;
        say_argument(rt, OUT)?;
        say(rt, b"\n")?
    }
    Ok(())
}

fn refused_names(rt: &impl Print, number: u8, at: usize, names: File) -> io::Result<()> {
    print!(rt;
        "refused {number}: key list, byte {}: ",
        names.true_offset(at)
    )?;
    if number == refused::KEY_LAYOUT {
        say(
            rt,
            b"a key record that breaks its layout, is not exact, is not 64 bits wide, or is a 17th\n",
        )
    } else {
        say_reason(rt, number, false)
    }
}

fn refused_text(rt: &impl Print, number: u8, at: usize) -> io::Result<()> {
    print!(rt; "refused {number}: text, byte {at}: ")?;
    say(
        rt,
        b"the text has more than 4,096 bytes, 1,024 tokens or 64 levels\n",
    )
}

fn draft(
    rt: &(impl Files + Env + Print + Eprint),
    contract: &[u8],
    table: &[u64],
    names: File,
) -> io::Result<()> {
    let mut buffer = [0u8; 4096];
    match valve::pact(contract, table, names.bytes, &mut buffer) {
        Ok(n) => drafted(rt, start(&buffer, n)),
        Err(refusal) => draft_refused(rt, refusal, contract, table, names),
    }
}

fn draft_refused(
    rt: &impl Print,
    refusal: Refusal,
    contract: &[u8],
    table: &[u64],
    names: File,
) -> io::Result<()> {
    let number = refusal.number;
    match refusal.place {
        Place::Contract(at) => {
            print!(rt; "refused {number}: contract, byte {at}: ")?;
            say_why(
                rt,
                contract,
                at,
                names.bytes.len() / KeyRecord::SIZE,
                table.len(),
            )
        }
        Place::Table(at) => {
            print!(rt; "refused {number}: table, number {at}: ")?;
            say(rt, b"a 17th user number, and a table has at most 16\n")
        }
        Place::List(at) => refused_names(rt, number, at, names),
        Place::Buffer(at) => refused_text(rt, number, at),
        _ => Ok(()),
    }
}

fn too_long(rt: &(impl Env + Print), i: usize) -> io::Result<()> {
    say(rt, b"cannot read ")?;
    say_argument(rt, i)?;
    say(rt, b": it has more than 65,536 bytes\n")
}

fn wrong_line(rt: &(impl Env + Print), text: &[u8], at: usize) -> io::Result<()> {
    say(rt, b"cannot read ")?;
    say_argument(rt, TABLE)?;
    say(rt, b": a line that is no decimal number below 2^64\n")?;
    caret::show(rt, text, at, at)
}

// With the names, once the numbers are known.
fn with_names(
    rt: &(impl Files + Env + Print + Eprint),
    contract: &[u8],
    table: &[u64],
) -> io::Result<()> {
    let mut room = [0u8; 65536];
    match read_argument(rt, NAMES, &mut room)? {
        Some(names) => draft(rt, contract, table, names),
        None => Ok(()),
    }
}

fn with_table(
    rt: &(impl Files + Env + Print + Eprint),
    contract: &[u8],
    text: &[u8],
) -> io::Result<()> {
    let mut table = [0u64; lines::KEPT];
    match read_table(text, &mut table) {
        Ok(n) => with_names(rt, contract, lines::start(&table, n)),
        Err(at) => wrong_line(rt, text, at),
    }
}

// Reads CONTRACT, TABLE and KEYS, and writes the text to OUT. No text can say what a contract of more than 65,536 bytes says.
pub(crate) fn pact(rt: &(impl Files + Env + Print + Eprint)) -> io::Result<()> {
    let mut first = [0u8; 65536];
    let mut second = [0u8; 65536];
    let Some(contract) = read_argument(rt, CONTRACT, &mut first)? else {
        return Ok(());
    };
    if contract.bytes.len() < contract.size {
        return too_long(rt, CONTRACT);
    }
    let Some(table) = read_argument(rt, TABLE, &mut second)? else {
        return Ok(());
    };
    if table.bytes.len() < table.size {
        return too_long(rt, TABLE);
    }
    with_table(rt, contract.bytes, table.bytes)
}
