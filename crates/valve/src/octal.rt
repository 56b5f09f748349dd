// A text on file with its octal numerals in hex: refusal 1, then 5 to 7 by the old rules, then 21.
ghost use Rattle.std.specs.Prelude.{◌≤◌, length};
ghost use Rattle.paper.specs.Tokens.{most_text};
ghost use Rattle.paper.specs.Promised.{FixPromised};

use crate::style;
use paper::{Place, Refusal, refused};
use tokens::fixing;

// It is written to a scratch first, so that the buffer is known to be large enough before its first byte changes.
fn fix_in(text: &[u8], scratch: &mut [u8], buffer: &mut [u8]) -> Result<usize, Refusal>
    requires text_len_bound { length text.now ≤ most_text }
    requires text_in_bounds { length text.now ≤ length scratch.old }
    ensures { FixPromised text.now buffer.old (record { answer = result; buffer = buffer.new }) }
{
    let n = fixing::fix(text, scratch)?;
    if buffer.len() < n {
        return Err(Refusal {
            number: refused::PRINT_LONG,
            place: Place::Buffer(buffer.len()),
        });
    }
    style::lend_first(scratch, n, buffer);
    Ok(n)
}

// With scratch of so many bytes, as many as the text has at least.
fn fix_on<const BYTES: usize>(text: &[u8], buffer: &mut [u8]) -> Result<usize, Refusal>
    requires few_bytes { BYTES ≤ most_text }
    requires text_fits { length text.now ≤ BYTES }
    ensures { FixPromised text.now buffer.old (record { answer = result; buffer = buffer.new }) }
{
    let mut scratch = [0u8; BYTES];
    fix_in(text, &mut scratch, buffer)
}

// The length of the result, which stands at the front of the buffer. Every later byte of the buffer stays, and all of it on a refusal.
pub fn fix_octal(text: &[u8], buffer: &mut [u8]) -> Result<usize, Refusal>
    ensures { FixPromised text.now buffer.old (record { answer = result; buffer = buffer.new }) }
{
    if reading::MOST_TEXT < text.len() {
        return Err(Refusal {
            number: refused::TEXT_TOO_LONG,
            place: Place::Text(reading::MOST_TEXT),
        });
    }
    if text.len() <= reading::SHORT_TEXT {
        fix_on::<{ reading::SHORT_TEXT }>(text, buffer)
    } else {
        fix_on::<{ reading::MOST_TEXT }>(text, buffer)
    }
}
