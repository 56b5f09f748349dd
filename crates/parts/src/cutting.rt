// Where each part begins and ends: a loop over the tokens, which counts the parentheses that are open.
ghost use Rattle.std.specs.Prelude.{◌≡◌, ◌*◌, ◌≤◌, ◌<◌};
ghost use Rattle.paper.specs.Tokens.{most_tokens};
ghost use Rattle.paper.specs.Parts.{most_parts};
ghost use Rattle.parts.specs.Rows.{stretches_on};
ghost use Rattle.parts.specs.Cutting.{kind_divides, kind_opens, stretches, Closed};
ghost use Rattle.parts.specs.Found.{Taped, Room};

use crate::rows;
use tokens::{kinds, rows as tape_rows};

// A ";" outside parentheses.
fn divides(depth: usize, kind: u32) -> bool
    ensures { result ≡ kind_divides depth kind }
{
    kind == kinds::SEQUEL && depth == 0
}

// How many parentheses are open after a token of a kind. A text that is read closes none that is not open.
fn open_after(depth: usize, kind: u32) -> usize
    requires { depth < most_tokens }
    ensures { result ≡ kind_opens depth kind }
{
    match kind {
        kinds::OPENING => depth + 1,
        kinds::CLOSING => depth.saturating_sub(1),
        _ => depth,
    }
}

// Stores the part from one token to that before another, if it has any, after the n that are stored; answers how many there are then.
fn close(tape: &[u32], first: usize, past: usize, parts: &mut [u32], n: usize) -> usize
    requires taped { Taped tape.now past × (first ≤ past) }
    requires room { Room parts.old × (2 * n ≤ first) }
    ensures { Closed tape.now parts.old parts.new first past n result }
{
    if first == past {
        return n;
    }
    let start = tape_rows::start_at(tape, first);
    let end = tape_rows::end_at(tape, past - 1);
    rows::put_stretch(parts, n, start, end);
    n + 1
}

// Stores where each part begins and ends; answers how many there are.
pub(crate) fn cut(tape: &[u32], count: usize, parts: &mut [u32]) -> usize
    requires taped { Taped tape.now count }
    requires room { Room parts.old }
    ensures says { stretches_on parts.new result ≡ stretches tape.now 0 0 0 count }
    ensures few { result ≤ most_parts }
{
    let mut n = 0;
    let mut first = 0;
    let mut depth = 0;
    for i in 0..count {
        let kind = tape_rows::kind_at(tape, i);
        if divides(depth, kind) {
            n = close(tape, first, i, parts, n);
            first = i + 1;
        } else {
            depth = open_after(depth, kind);
        }
    }
    close(tape, first, count, parts, n)
}
