// Runs: bytes of one sort that stand together.
ghost use Rattle.std.specs.Prelude.{◌≡◌, ◌+◌, ◌≤◌, leb, length, drop};
ghost use Rattle.paper.specs.Tokens.{span};
ghost use Rattle.spelling.specs.Runs.{in_run, EndsAt, line_more, stride};

use crate::{bytes, word};

#[derive(Clone, Copy)]
pub enum Run {
    // Letters, digits and underscores.
    Name,
    // What is left of a line.
    Line,
    // What may stand between two quotes.
    Quoted,
    // Digits of a base.
    Digits(u8),
}

fn goes_on(run: Run, byte: u8) -> bool
    ensures { result ≡ in_run run byte }
{
    match run {
        Run::Name => word::is_id_byte(byte),
        Run::Line => byte != b'\n',
        Run::Quoted => !matches!(byte, b'\'' | b'\n'),
        Run::Digits(base) => bytes::digit_of(byte) < base,
    }
}

// Where the run ends that starts at an offset.
pub fn run_end(text: &[u8], at: usize, run: Run) -> usize
    requires { at ≤ length text.now }
    ensures { EndsAt text.now at (span (in_run run) (drop at text.now)) result }
{
    at + text[at..]
        .iter()
        .take_while(|byte| goes_on(run, **byte))
        .count()
}

// So many bytes are looked through together for the end of a line.
const STRIDE: usize = 16;

// Whether a line goes on through so many bytes. No byte of them ends the loop, so that the compiler takes them all at once.
fn goes_through(text: &[u8], at: usize) -> bool
    requires { at + stride ≤ length text.now }
    ensures { result ≡ leb stride (line_more text.now at) }
{
    !text[at..at + STRIDE]
        .iter()
        .fold(false, |ended, byte| ended | (*byte == b'\n'))
}

// Where the line ends that goes on at an offset. Strides are passed by their place, which chunks would have to be counted back into.
pub fn line_end(text: &[u8], at: usize) -> usize
    requires { at ≤ length text.now }
    ensures { EndsAt text.now at (line_more text.now at) result }
{
    let mut i = at;
    while i + STRIDE <= text.len() {
        if !goes_through(text, i) {
            break;
        }
        i += STRIDE;
    }
    run_end(text, i, Run::Line)
}
