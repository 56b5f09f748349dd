// Why a contract is refused with 24 at a byte, in words. All before that byte is good.
use crate::say::Things;
use lines::say;
use std::io;

// What a byte may end.
#[derive(Clone, Copy)]
enum Piece {
    Assertion,
    Conjunction,
    // An opcode that waits for its index.
    Comparator(u8),
}

// The lowest conjunction; what is below it is a comparator.
const CONJUNCTION: u8 = 0x80;

const LOADS_INPUT: u8 = 0x20;

const IN: u8 = 3;

// The first operation number that no conjunction has.
const CONJUNCTIONS: u8 = 3;

fn piece_of(opcode: u8) -> Piece {
    if opcode < CONJUNCTION {
        Piece::Comparator(opcode)
    } else {
        Piece::Conjunction
    }
}

// What a byte ends, after what stands before it.
fn after(before: Option<Piece>, byte: u8) -> Piece {
    match before {
        Some(Piece::Comparator(_)) => Piece::Assertion,
        _ => piece_of(byte),
    }
}

// What stands at the end of some bytes, if there are any.
fn last_piece(bytes: &[u8]) -> Option<Piece> {
    bytes
        .iter()
        .fold(None, |before, byte| Some(after(before, *byte)))
}

fn unused(rt: &impl Print, what: &str, operation: u8) -> io::Result<()> {
    println!(rt; " is no {what}: no operation has number {operation}")
}

fn wrong_comparator(rt: &impl Print, operation: u8) -> io::Result<()> {
    if operation == IN {
        say(rt, b" is IN, which no text can say\n")
    } else {
        unused(rt, "comparator", operation)
    }
}

// A conjunction that is one stands where it may not.
fn wrong_conjunction(rt: &impl Print, operation: u8, before: Option<Piece>) -> io::Result<()> {
    if CONJUNCTIONS <= operation {
        return unused(rt, "conjunction", operation);
    }
    match before {
        Some(Piece::Conjunction) => say(rt, b" is a conjunction, and another stands before it\n"),
        _ => say(
            rt,
            b" is a conjunction, and no assertion stands before it\n",
        ),
    }
}

fn wrong_opcode(rt: &impl Print, opcode: u8, before: Option<Piece>) -> io::Result<()> {
    print!(rt; "0x{opcode:02x}")?;
    if opcode % 4 != 0 {
        say(rt, b" has a reserved bit\n")
    } else if opcode < CONJUNCTION {
        wrong_comparator(rt, opcode / 4 % 8)
    } else {
        wrong_conjunction(rt, opcode / 4 % 16, before)
    }
}

// An index of one of so many things, by the word for one and the word for more.
fn none_there(rt: &impl Print, index: u8, there: Things) -> io::Result<()> {
    let verb = if there.0 == 1 { "is" } else { "are" };
    println!(rt; "index {index}, but there {verb} {there}")
}

// The left index is looked at first.
fn wrong_index(
    rt: &impl Print,
    opcode: u8,
    byte: u8,
    names: usize,
    numbers: usize,
) -> io::Result<()> {
    let left = byte / 16;
    let right = byte % 16;
    let names_there = Things(names, "name", "names");
    if names <= usize::from(left) {
        none_there(rt, left, names_there)
    } else if opcode / LOADS_INPUT % 2 == 1 {
        none_there(rt, right, names_there)
    } else {
        none_there(rt, right, Things(numbers, "user number", "user numbers"))
    }
}

fn wrong_byte(
    rt: &impl Print,
    before: Option<Piece>,
    byte: u8,
    names: usize,
    numbers: usize,
) -> io::Result<()> {
    match before {
        Some(Piece::Comparator(opcode)) => wrong_index(rt, opcode, byte, names, numbers),
        _ => wrong_opcode(rt, byte, before),
    }
}

fn cut(rt: &impl Print, before: Option<Piece>) -> io::Result<()> {
    match before {
        Some(Piece::Conjunction) => say(rt, b"the contract ends in a conjunction\n"),
        _ => say(rt, b"the contract ends in an opcode, before its index\n"),
    }
}

// Says what is wrong with the byte at an offset, or with the contract's end.
pub fn say_why(
    rt: &impl Print,
    contract: &[u8],
    at: usize,
    names: usize,
    numbers: usize,
) -> io::Result<()> {
    let before = last_piece(lines::start(contract, at));
    match contract.get(at) {
        Some(byte) => wrong_byte(rt, before, *byte, names, numbers),
        None => cut(rt, before),
    }
}
