// Which numerals the pass over octal changed, seen by the text and what was made of it, side by side. A numeral keeps its first byte, and differs in
// its second, `0x` for `0o`; after it both are the same again.
use crate::say::Things;
use lines::say;
use spelling::runs::{Run, run_end};
use std::io;

fn say_change(
    rt: &impl Print,
    telling: bool,
    at: usize,
    numeral: &[u8],
    made: &[u8],
) -> io::Result<()> {
    if telling {
        print!(rt; "    byte {at}: ")?;
        say(rt, numeral)?;
        say(rt, b" is ")?;
        say(rt, made)?;
        say(rt, b" now\n")?
    }
    Ok(())
}

// Goes through both from their second byte on, counts the numerals that differ, and tells them if it is asked to.
fn changes(rt: &impl Print, text: &[u8], made: &[u8], telling: bool) -> io::Result<usize> {
    let mut count = 0;
    let mut at = 1;
    let mut to = 1;
    // A loop, and no `zip`: the two texts go on by different lengths at a numeral that was written anew.
    while at < text.len() {
        if made.len() <= to {
            return Ok(count);
        }
        if text[at] == made[to] {
            at += 1;
            to += 1;
        } else {
            let end = run_end(text, at, Run::Name);
            let past = run_end(made, to, Run::Name);
            say_change(rt, telling, at - 1, &text[at - 1..end], &made[to - 1..past])?;
            count += 1;
            at = end + 1;
            to = past + 1;
        }
    }
    Ok(count)
}

// How many numerals were changed, as the first words of a line.
pub fn say_fixed(rt: &impl Print, text: &[u8], made: &[u8]) -> io::Result<()> {
    let count = changes(rt, text, made, false)?;
    print!(rt; "fixed {}: ", Things(count, "numeral", "numerals"))
}

// A line for each numeral that was changed: where it stands in the text, how it was written there, and how it is now.
pub fn say_changes(rt: &impl Print, text: &[u8], made: &[u8]) -> io::Result<()> {
    changes(rt, text, made, true)?;
    Ok(())
}
