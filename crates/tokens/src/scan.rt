// What stands at a byte that no token before it covers.
ghost use Rattle.std.specs.Prelude.{◌≡◌, ◌+◌, ◌<◌, length, get_or, drop};
ghost use Rattle.paper.specs.Tokens as paper;
ghost use Rattle.number.specs.Values.{value};
ghost use Rattle.number.specs.Bases.{literal_meant};
ghost use Rattle.spelling.specs.Numerals.{notation_meant};
ghost use Rattle.tokens.specs.Scanned.{Stands, fits_as, literal_for, too_large_as};

use crate::found::Lexeme;
use crate::{kinds, quotes, signs};
use number::{Base, Literal, Magnitude};
use spelling::numerals::{Notation, NumeralError};
use spelling::runs::Run;
use spelling::{bytes, numerals, runs};

// The literal is that of a numeral, and of an octal one the literal in hex.
#[derive(Clone, Copy)]
pub struct Scanned {
    pub found: Lexeme,
    pub literal: Literal,
}

fn unnumbered(found: Lexeme) -> Scanned
    ensures { (result.found ≡ found) × (literal_meant result.literal ≡ paper.plain 0) }
{
    Scanned {
        found: found,
        literal: Literal::plain(Magnitude::zero()),
    }
}

fn word(text: &[u8], at: usize) -> Lexeme
    requires { at < length text.now }
    ensures { Stands text.now at (paper.plain 0) (paper.scan_word (get_or text.now at 0) (drop (at + 1) text.now)) result }
{
    let next = at + 1;
    Lexeme::Token(kinds::WORD, next + spelling::word::word_more(text, next))
}

// A numeral whose number fits, up to an offset.
fn fitting(notation: Notation, number: Magnitude, end: usize) -> Scanned
    ensures { (result.found ≡ fits_as notation end) × (literal_meant result.literal ≡ literal_for (notation_meant notation) (value number)) }
{
    match notation {
        Notation::Based(base) => Scanned {
            found: Lexeme::Token(kinds::NUMERAL, end),
            literal: Literal {
                base: base,
                number: number,
            },
        },
        Notation::Octal => Scanned {
            found: Lexeme::Octal(end),
            literal: Literal {
                base: Base::Hex,
                number: number,
            },
        },
    }
}

fn too_large(notation: Notation) -> Lexeme
    ensures { result ≡ too_large_as notation }
{
    match notation {
        Notation::Based(_) => Lexeme::TooLarge,
        Notation::Octal => Lexeme::OctalTooLarge,
    }
}

fn numeral(text: &[u8], at: usize) -> Scanned
    requires { at < length text.now }
    ensures { Stands text.now at (literal_meant result.literal) (paper.scan_numeral (get_or text.now at 0) (drop (at + 1) text.now)) result.found }
{
    let end = runs::run_end(text, at + 1, Run::Name);
    match numerals::read_numeral(&text[at..end]) {
        Ok(read) => fitting(read.notation, read.number, end),
        Err(NumeralError::TooLarge(notation)) => unnumbered(too_large(notation)),
        Err(NumeralError::NoNumeral) => unnumbered(Lexeme::NoToken),
    }
}

// What stands at an offset.
pub(crate) fn scan(text: &[u8], at: usize) -> Scanned
    requires { at < length text.now }
    ensures { Stands text.now at (literal_meant result.literal) (paper.scan (get_or text.now at 0) (drop (at + 1) text.now)) result.found }
{
    let byte = text[at];
    if bytes::is_blank(byte) {
        return unnumbered(Lexeme::Blank(at + 1));
    }
    if byte == b'/' {
        return unnumbered(quotes::comment(text, at));
    }
    if byte == b'\'' {
        return unnumbered(quotes::string(text, at));
    }
    if spelling::word::is_id_start(byte) {
        return unnumbered(word(text, at));
    }
    if bytes::is_digit(byte) {
        return numeral(text, at);
    }
    unnumbered(signs::sign(text, at))
}
