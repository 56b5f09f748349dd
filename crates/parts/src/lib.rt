// The parts of a text: what stands between its top-level ";" signs, those outside parentheses.
//
// `find` is for a reader that still has the tape of the text's tokens and the nodes of its tree. It stores a row for each part: its first
// byte, its end and the node of its root (`rows`), for those that judge and show parts one by one. The tokens are gone over once, and of the
// nodes only those that join parts.
#![tactic(auto)]

ghost use Rattle.parts.specs.Found.{Taped, Noded, Room, Finds};

mod cutting;
pub mod rows;
mod spine;

// No text has more: each has a token, a ";" stands between two, and a text has at most 1,024 tokens.
pub const MOST_PARTS: usize = 512;

// The words of a text's parts.
pub const PART_WORDS: usize = rows::WORDS * MOST_PARTS;

// Finds the parts of a text, whose tokens stand on the tape and whose tree stands at a node; answers how many there are.
pub fn find(tape: &[u32], count: usize, nodes: &[u32], root: usize, parts: &mut [u32]) -> usize
    requires taped { Taped tape.now count }
    requires noded { Noded nodes.now root }
    requires room { Room parts.old }
    ensures { Finds tape.now count nodes.now root parts.new result }
{
    let n = cutting::cut(tape, count, parts);
    spine::name_roots(nodes, root, parts, n);
    n
}
