// Tokens to a tree, by the grammar of document 01.
//
// The tokens of a text stand on a tape, a lent slice of eight words a token (crate tokens). `parse` reads all of them into
// one tree, in a lent slice of eight words a node, or refuses with the first number and place that document 01 gives: 8, 9
// or 10. It promises the definition's answer (`parsed`) for every tape, and the tree's words one by one (`words`, crate
// trees).
#![tactic(auto)]

mod ladder;
mod leaves;
mod steps;
mod store;
mod tape;

ghost use Rattle.std.specs.Prelude.{◌*◌, ◌≤◌, length};
ghost use Rattle.tokens.specs.Tape.{tape_of};
ghost use Rattle.tokens.specs.Tokenized.{Sound};
ghost use Rattle.grammar.specs.Places.{node_words};
ghost use Rattle.grammar.specs.Reading.{Parses};

use crate::steps::Rung;
use paper::{Refusal, refused};

// How many levels may be open.
const LEVELS: usize = 64;

// The number of nodes, of which the last is the root; or a refusal.
pub fn parse(text: &[u8], tape: &[u32], count: usize, nodes: &mut [u32]) -> Result<usize, Refusal>
    requires sound { Sound (tape_of text.now tape.now) count }
    requires node_words_in_bounds { count * node_words ≤ length nodes.old }
    ensures { Parses (tape_of text.now tape.now) count nodes.old nodes.new result }
{
    // at the first token and the first node
    let from = [count, LEVELS, 0, 0];
    let read = ladder::chain(text, tape, Rung::Whole, &from, nodes)?;
    if read.token < count {
        return Err(Refusal {
            number: refused::GRAMMAR,
            place: tape::place_at(text, tape, count, read.token),
        });
    }
    Ok(read.node)
}
