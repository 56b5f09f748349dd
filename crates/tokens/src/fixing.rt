// The pass for texts on file: each octal numeral is written in hex, and every other byte as it stands. It goes by the old rules, under which an
// octal numeral is a token as any other.
ghost use Rattle.std.specs.Prelude.{◌≡◌, ◌+◌, ◌≤◌, length, drop};
ghost use Rattle.paper.specs.Tokens.{most_tokens};
ghost use Rattle.number.specs.Values.{value};
ghost use Rattle.tokens.specs.Fixes.{step_for, hex_numeral, Put, Fixes};

use crate::found::Lexeme;
use crate::{MOST_TOKENS, scan};
use number::Magnitude;
use paper::{Place, Refusal, refused};
use spelling::bytes;

// How the pass goes on, by what is found after n tokens: a piece up to an offset is copied or written in hex, with so many tokens before the next
// one.
#[derive(Clone, Copy)]
pub enum Step {
    Copied(usize, usize),
    InHex(usize, usize),
}

const HEX: u32 = 16;

// A step, or the number of a refusal. A numeral that is too large is refused as such even where there is no room for a token.
fn by_old_rules(found: Lexeme, n: usize) -> Result<Step, u8>
    requires { n ≤ most_tokens }
    ensures { result ≡ step_for found n }
{
    match found {
        Lexeme::Blank(end) => Ok(Step::Copied(end, n)),
        Lexeme::Token(..) | Lexeme::Octal(_) if n == MOST_TOKENS => Err(refused::TOKENS_MANY),
        Lexeme::Token(_, end) => Ok(Step::Copied(end, n + 1)),
        Lexeme::Octal(end) => Ok(Step::InHex(end, n + 1)),
        Lexeme::NoToken => Err(refused::NO_TOKEN),
        Lexeme::OctalTooLarge | Lexeme::TooLarge => Err(refused::NUMERAL_LARGE),
    }
}

// Writes bytes to an offset, and tells the offset after them.
fn put(s: &[u8], at: usize, out: &mut [u8]) -> usize
    requires { at + length s.now ≤ length out.old }
    ensures { Put out.old at s.now out.new result }
{
    bytes::copy(s, at, out);
    at + s.len()
}

fn put_rest(s: &[u8], first: usize, at: usize, out: &mut [u8]) -> usize
    requires { (first ≤ length s.now) × (at + length (drop first s.now) ≤ length out.old) }
    ensures { Put out.old at (drop first s.now) out.new result }
{
    put(&s[first..], at, out)
}

fn put_hex(number: Magnitude, at: usize, out: &mut [u8]) -> usize
    requires { at + length (hex_numeral (value number)) ≤ length out.old }
    ensures { Put out.old at (hex_numeral (value number)) out.new result }
{
    let announced = put(b"0x", at, out);
    let digits = number.digits_in(HEX);
    put_rest(&digits.bytes, digits.first, announced, out)
}

// Writes a text anew from the start of a slice that is as long at least, and answers how many bytes were written, or the refusal. No piece is
// longer than the one that it stands for, so there is always room.
pub fn fix(text: &[u8], out: &mut [u8]) -> Result<usize, Refusal>
    requires { length text.now ≤ length out.old }
    ensures { Fixes text.now out.new result }
{
    let mut n = 0;
    let mut at = 0;
    let mut written = 0;
    // A loop, and no iterator: a token is as long as it is found to be.
    while at < text.len() {
        let scanned = scan::scan(text, at);
        let step = match by_old_rules(scanned.found, n) {
            Ok(step) => step,
            Err(number) => {
                return Err(Refusal {
                    number,
                    place: Place::Text(at),
                });
            }
        };
        match step {
            Step::Copied(end, tokens) => {
                written = put(&text[at..end], written, out);
                at = end;
                n = tokens;
            }
            Step::InHex(end, tokens) => {
                written = put_hex(scanned.literal.number, written, out);
                at = end;
                n = tokens;
            }
        }
    }
    Ok(written)
}
