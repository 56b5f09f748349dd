// Numerals: (0[dD])? [0-9]+, 0[bB] [0-1]+, 0[oO] [0-7]+, 0[xX] [0-9a-fA-F]+.
ghost use Rattle.std.specs.Prelude.{◌≡◌, map, ◌<◌, ◌≤◌};
ghost use Rattle.paper.specs.Numbers.{in_base};
ghost use Rattle.paper.specs.Tokens.{radix_of, notation_of, digit_of, spelling};
ghost use Rattle.number.specs.Values.{Fitted};
ghost use Rattle.spelling.specs.Numerals.{notation_meant, announced, Announces, Spells, written_in};

use crate::runs::Run;
use crate::{bytes, runs};
use number::{Base, Magnitude};

// How a numeral is written: in a base, or in octal, which no token has.
#[derive(Clone, Copy)]
pub enum Notation {
    Based(Base),
    Octal,
}

// How a numeral is written, and its number.
#[derive(Clone, Copy)]
pub struct Numeral {
    pub notation: Notation,
    pub number: Magnitude,
}

// Why a run has no number: it is no numeral, or one whose number does not fit.
#[derive(Clone, Copy)]
pub enum NumeralError {
    NoNumeral,
    TooLarge(Notation),
}

impl Notation {
    // How many digits it has.
    fn radix(self) -> u32
        ensures is { result ≡ radix_of (notation_meant self) }
        ensures two { 2 ≤ result }
        ensures few { result ≤ 16 }
    {
        match self {
            Notation::Based(base) => base.radix(),
            Notation::Octal => 8,
        }
    }
}

// The notation that a letter announces after a first 0.
fn notation_of(letter: u8) -> Option<Notation>
    ensures { announced result ≡ notation_of letter }
{
    match letter {
        b'd' | b'D' => Some(Notation::Based(Base::Decimal)),
        b'b' | b'B' => Some(Notation::Based(Base::Binary)),
        b'o' | b'O' => Some(Notation::Octal),
        b'x' | b'X' => Some(Notation::Based(Base::Hex)),
        _ => None,
    }
}

// The notation that the first bytes of a run announce.
fn notation_announced(run: &[u8]) -> Option<Notation>
    ensures { Announces run.now result }
{
    match run {
        [b'0', letter, ..] => notation_of(*letter),
        _ => None,
    }
}

// What digits count, if it fits.
fn count(digits: &[u8], base: u32) -> Option<Magnitude>
    requires { 0 < base }
    ensures { Fitted (in_base base (map digit_of digits.now)) result }
{
    let mut number = Magnitude::zero();
    for digit in digits {
        number = number.checked_grow(base, bytes::digit_of(*digit) as u32)?;
    }
    Some(number)
}

// Its answer stays out of memory: it is put into its caller.
#[inline(always)]
fn in_notation(digits: &[u8], notation: Notation) -> Result<Numeral, NumeralError>
    ensures { Spells (written_in (notation_meant notation) digits.now) result }
{
    let radix = notation.radix();
    let end = runs::run_end(digits, 0, Run::Digits(radix as u8));
    if end == 0 || end < digits.len() {
        return Err(NumeralError::NoNumeral);
    }
    match count(digits, radix) {
        Some(number) => Ok(Numeral { notation, number }),
        None => Err(NumeralError::TooLarge(notation)),
    }
}

// What a run that starts with a digit is, as a whole: a numeral that fits, one that is too large, or none.
pub fn read_numeral(run: &[u8]) -> Result<Numeral, NumeralError>
    ensures { Spells (spelling run.now) result }
{
    match notation_announced(run) {
        Some(notation) => in_notation(&run[2..], notation),
        None => in_notation(run, Notation::Based(Base::Decimal)),
    }
}
