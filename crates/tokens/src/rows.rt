// The rows of a tape: eight words for each token, in the order of the tokens.
//
// A row holds the token's kind, its first byte, the byte past its last, the four limbs of a numeral's number, and its base.
// specs/Tape.antt has the definition.
ghost use Rattle.std.specs.Prelude.{◌≡◌, ◌^◌, ◌<◌};
ghost use Rattle.std.proofs.lemmas.List.Edits.{sets};
ghost use Rattle.number.specs.Bases.{literal_meant};
ghost use Rattle.tokens.specs.Tape.{Has, RoomFor, row_at, kind_at, start_at, end_at, literal_at, row_of, PutPlain};

use crate::MOST_TOKENS;
use number::{Base, Literal, Magnitude};

// A token as it is stored. The literal is that of a numeral.
#[derive(Clone, Copy)]
pub struct Row {
    pub kind: u32,
    pub start: usize,
    pub end: usize,
    pub literal: Literal,
}

impl Row {
    pub const WORDS: usize = 8;
}

// How many tokens have a row among so many words, up to as many as a text may have.
pub(crate) fn room(words: usize) -> usize
    ensures { RoomFor words result }
{
    let rows = words / Row::WORDS;
    if MOST_TOKENS < rows {
        return MOST_TOKENS;
    }
    rows
}

// The kind of the token of an index.
pub fn kind_at(tape: &[u32], token: usize) -> u32
    requires { Has tape.now token }
    ensures { result ≡ kind_at tape.now token }
{
    tape[token * Row::WORDS]
}

// The offset of its first byte.
pub fn start_at(tape: &[u32], token: usize) -> u32
    requires { Has tape.now token }
    ensures { result ≡ start_at tape.now token }
{
    tape[token * Row::WORDS + 1]
}

// The offset past its last byte.
pub fn end_at(tape: &[u32], token: usize) -> u32
    requires { Has tape.now token }
    ensures { result ≡ end_at tape.now token }
{
    tape[token * Row::WORDS + 2]
}

// A numeral's number, and its base.
pub fn literal_at(tape: &[u32], token: usize) -> Literal
    requires { Has tape.now token }
    ensures { literal_meant result ≡ literal_at tape.now token }
{
    let at = token * Row::WORDS;
    Literal {
        base: Base::of_radix(tape[at + 7]),
        number: Magnitude {
            limbs: [tape[at + 3], tape[at + 4], tape[at + 5], tape[at + 6]],
        },
    }
}

// Stores the row of an index; every other row stays.
pub(crate) fn put(tape: &mut [u32], token: usize, row: Row)
    requires has { Has tape.old token }
    requires start_bound { (row.start < 2 ^ 32) × (row.end < 2 ^ 32) }
    ensures { tape.new ≡ sets tape.old (row_at token) (row_of row.kind row.start row.end row.literal) }
{
    let literal = row.literal;
    let base = literal.base;
    let number = literal.number;
    let at = token * Row::WORDS;
    tape[at] = row.kind;
    tape[at + 1] = row.start as u32;
    tape[at + 2] = row.end as u32;
    tape[at + 3] = number.limbs[0];
    tape[at + 4] = number.limbs[1];
    tape[at + 5] = number.limbs[2];
    tape[at + 6] = number.limbs[3];
    tape[at + 7] = base.radix();
}

// The same of a token that is no numeral.
pub(crate) fn put_plain(tape: &mut [u32], token: usize, kind: u32, start: usize, end: usize)
    requires has { Has tape.old token }
    requires start_bound { (start < 2 ^ 32) × (end < 2 ^ 32) }
    ensures { PutPlain tape.old token kind start end tape.new }
{
    let row = Row {
        kind: kind,
        start: start,
        end: end,
        literal: Literal::plain(Magnitude::zero()),
    };
    put(tape, token, row);
}
