// The tokens of a text, on a tape: a lent slice of numbers, eight words a token.
//
// `tokenize` cuts a text of at most 4,096 bytes into at most 1,024 tokens, or gives refusal 5, 6, 7 or 22 at the byte
// that the documents say; or it tells that the tape is too small. `rows` owns the layout of a token's eight words and reads them; specs/Tape.antt reads the tape
// back as the paper's tokens. `fixing` writes a text anew without its octal numerals.
#![tactic(auto)]

ghost use Rattle.std.specs.Prelude.{◌≡◌, ◌≤◌, length};
ghost use Rattle.paper.specs.Tokens.{most_text};
ghost use Rattle.tokens.specs.Tape.{tape_of};
ghost use Rattle.tokens.specs.declared.Stop.TheVariants.{Refused};
ghost use Rattle.tokens.specs.Tokenized.{CutSays, Placed, refused_there, octal_refusal, row_refusal};

use crate::found::Lexeme;
use crate::rows::Row;
use crate::signs::LENGTHS;
use paper::{Place, Refusal, refused};
use spelling::bytes::is_blank;

pub mod fixing;
mod found;
pub mod kinds;
mod plain;
mod quotes;
pub mod rows;
mod scan;
mod signs;

pub const MOST_TOKENS: usize = 1024;

// Why there are no tokens of a text, nor anything that is made of them.
#[derive(Clone, Copy)]
pub enum Stop {
    Refused(Refusal),
    // The text has more tokens than the tape has rows for: what was lent is too small, and nothing is said of the text.
    Over,
}

impl From<Refusal> for Stop {
    ghost from_gives = { λ refusal stop. stop ≡ Refused refusal };

    fn from(refusal: Refusal) -> Stop {
        Stop::Refused(refusal)
    }
}

fn refused(number: u8, at: usize) -> Stop
    ensures { result ≡ refused_there number at }
{
    Stop::Refused(Refusal {
        number,
        place: Place::Text(at),
    })
}

// An octal numeral after n tokens: one more than there is room for is told as such.
fn octal_refused(n: usize, at: usize) -> Stop
    ensures { result ≡ octal_refusal n at }
{
    if n == MOST_TOKENS {
        return refused(refused::TOKENS_MANY, at);
    }
    refused(refused::OCTAL, at)
}

// A token after n for which there is no row.
fn no_row(n: usize, at: usize) -> Stop
    ensures { result ≡ row_refusal n at }
{
    if n == MOST_TOKENS {
        return refused(refused::TOKENS_MANY, at);
    }
    Stop::Over
}

// Cuts a text into tokens and stores each in its row, as far as the tape has rows. The limit comes first: a tape with a row for each token that
// a text may have is never too small.
pub fn tokenize(text: &[u8], tape: &mut [u32]) -> Result<usize, Stop>
    requires { length text.now ≤ most_text }
    ensures says { CutSays (tape_of text.now tape.new) result }
    ensures placed { Placed (tape_of text.now tape.new) result }
{
    let room = rows::room(tape.len());
    let mut n = 0;
    let mut at = 0;
    // A loop, and no iterator: a token is as long as it is found to be, and many are never handed on as one value (below).
    while at < text.len() {
        // Blanks, words and signs need no scan, whose answer goes through memory.
        if is_blank(text[at]) {
            at += 1;
            continue;
        }
        let code = plain::code_at(text, at);
        if code != 0 {
            if n == room {
                return Err(no_row(n, at));
            }
            let end = plain::end_of(text, at, code);
            rows::put_plain(tape, n, code / LENGTHS, at, end);
            n += 1;
            at = end;
            continue;
        }
        let scanned = scan::scan(text, at);
        let found = scanned.found;
        match found {
            Lexeme::Blank(end) => at = end,
            Lexeme::Token(kind, end) => {
                if n == room {
                    return Err(no_row(n, at));
                }
                let literal = scanned.literal;
                let row = Row {
                    kind: kind,
                    start: at,
                    end: end,
                    literal: literal,
                };
                rows::put(tape, n, row);
                n += 1;
                at = end;
            }
            Lexeme::Octal(_) => return Err(octal_refused(n, at)),
            Lexeme::OctalTooLarge => return Err(octal_refused(n, at)),
            Lexeme::NoToken => return Err(refused(refused::NO_TOKEN, at)),
            Lexeme::TooLarge => return Err(refused(refused::NUMERAL_LARGE, at)),
        }
    }
    Ok(n)
}
