// Words and signs, which need no scan, whose answer goes through memory.
ghost use Rattle.std.specs.Prelude.{◌≡◌, ◌+◌, ◌≤◌, ◌<◌, length, get_or, drop};
ghost use Rattle.paper.specs.Tokens.{plain};
ghost use Rattle.tokens.specs.Scanned.{Stands, length_in, plain_end, plain_scan, plain_found};

use crate::signs::LENGTHS;
use crate::{kinds, signs};
use spelling::word;

// The code of a word is that of its first byte.
const WORD: u32 = LENGTHS * kinds::WORD + 1;

// The code of the word or the sign at an offset, 0 where neither stands.
pub(crate) fn code_at(text: &[u8], at: usize) -> u32
    requires { at < length text.now }
    ensures { Stands text.now at (plain 0) (plain_scan (get_or text.now at 0) (drop (at + 1) text.now)) (plain_found text.now at result) }
{
    if word::is_id_start(text[at]) {
        return WORD;
    }
    signs::sign_code(text, at)
}

// Where it ends.
pub(crate) fn end_of(text: &[u8], at: usize, code: u32) -> usize
    requires { at + length_in code ≤ length text.now }
    ensures { result ≡ plain_end text.now at code }
{
    let next = at + (code % LENGTHS) as usize;
    if code / LENGTHS == kinds::WORD {
        return next + word::word_more(text, next);
    }
    next
}
