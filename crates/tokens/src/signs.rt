// Signs of one byte and of two: "the longest possible from the left".
//
// A sign is one number, its code, which need not go through memory as a struct would: how many bytes it has, and LENGTHS times its kind; 0 is none.
// The signs that begin with a byte are one number too: the second byte of the one that takes two, PAIR times its code, and ALONE times the code of
// the byte by itself. Where no sign takes two, the second byte is 0, and the codes are the same.
ghost use Rattle.std.specs.Prelude.{◌≡◌, ◌+◌, ◌<◌, length, get_or, drop};
ghost use Rattle.paper.specs.Tokens.{scan_sign, plain};
ghost use Rattle.tokens.specs.Scanned.{Stands, Begins, Coded, sign_found};

use crate::found::Lexeme;
use crate::kinds;

pub(crate) const LENGTHS: u32 = 4;

const PAIR: u32 = 256;

const ALONE: u32 = 65536;

const SEQUEL: u32 = (PAIR + ALONE) * (LENGTHS * kinds::SEQUEL + 1);

const OPENING: u32 = (PAIR + ALONE) * (LENGTHS * kinds::OPENING + 1);

const CLOSING: u32 = (PAIR + ALONE) * (LENGTHS * kinds::CLOSING + 1);

const IMPLIES_MINUS: u32 = b'>' as u32
    + PAIR * (LENGTHS * kinds::IMPLIES + 2)
    + ALONE * (LENGTHS * kinds::MINUS + 1);

const UNEQUAL_NOT: u32 = b'=' as u32
    + PAIR * (LENGTHS * kinds::UNEQUAL + 2)
    + ALONE * (LENGTHS * kinds::NOT + 1);

const AT_LEAST_GREATER: u32 = b'=' as u32
    + PAIR * (LENGTHS * kinds::AT_LEAST + 2)
    + ALONE * (LENGTHS * kinds::GREATER + 1);

const AT_MOST_LESS: u32 = b'=' as u32
    + PAIR * (LENGTHS * kinds::AT_MOST + 2)
    + ALONE * (LENGTHS * kinds::LESS + 1);

const EQUAL: u32 = b'=' as u32 + PAIR * (LENGTHS * kinds::EQUAL + 2);

const OR_ELSE: u32 = b'|' as u32 + PAIR * (LENGTHS * kinds::OR_ELSE + 2);

const AND_ALSO: u32 = b'&' as u32 + PAIR * (LENGTHS * kinds::AND_ALSO + 2);

const COLONS: u32 = b':' as u32 + PAIR * (LENGTHS * kinds::COLONS + 2);

// One byte stands apart: a match from the first byte to the last would be too large for the compiler to put it where it is asked.
fn signs_from(byte: u8) -> u32
    ensures { Begins byte result }
{
    if b'>' < byte {
        if byte == b'|' {
            return OR_ELSE;
        }
        return 0;
    }
    match byte {
        b';' => SEQUEL,
        b'(' => OPENING,
        b')' => CLOSING,
        b'-' => IMPLIES_MINUS,
        b'!' => UNEQUAL_NOT,
        b'>' => AT_LEAST_GREATER,
        b'<' => AT_MOST_LESS,
        b'=' => EQUAL,
        b'&' => AND_ALSO,
        b':' => COLONS,
        _ => 0,
    }
}

// The byte at an offset, and 0 past the end.
fn byte_or_zero(text: &[u8], at: usize) -> u8
    ensures { result ≡ get_or text.now at 0 }
{
    if at < text.len() { text[at] } else { 0 }
}

// The code of the longest sign at an offset.
pub(crate) fn sign_code(text: &[u8], at: usize) -> u32
    requires { at < length text.now }
    ensures stands { Stands text.now at (plain 0) (scan_sign (get_or text.now at 0) (drop (at + 1) text.now)) (sign_found at result) }
    ensures coded { Coded result 2 }
{
    let signs = signs_from(text[at]);
    if byte_or_zero(text, at + 1) as u32 == signs % PAIR {
        return signs / PAIR % PAIR;
    }
    signs / ALONE
}

// The longest sign at an offset.
pub(crate) fn sign(text: &[u8], at: usize) -> Lexeme
    requires { at < length text.now }
    ensures { Stands text.now at (plain 0) (scan_sign (get_or text.now at 0) (drop (at + 1) text.now)) result }
{
    let code = sign_code(text, at);
    if code == 0 {
        return Lexeme::NoToken;
    }
    Lexeme::Token(code / LENGTHS, at + (code % LENGTHS) as usize)
}
