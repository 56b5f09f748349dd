// The code of a part as it is joined to those before it: the skip over it and the join, its own code, and the join.
ghost use Rattle.std.specs.Prelude.{List, ℕ, ◌+◌, ◌*◌, ◌≤◌, length};
ghost use Rattle.paper.specs.Comparing.{as_joined};
ghost use Rattle.paper.specs.Translating.{code_of};
ghost use Rattle.keys.specs.Says.{keys_in};
ghost use Rattle.trees.specs.Standing.{tree_at};
ghost use Rattle.translating.specs.Writing.{WritesJoined, Wrote};

use crate::{put, walk};
use paper::operations;

// Writes it from instruction number `i` on, and gives the number after it. The place of the skip is left free until it is known how far it reaches.
pub fn write_joined(list: &[u8], nodes: &[u32], at: usize, i: usize, code: &mut [u8]) -> usize
    requires { (at * 8 + 8 ≤ length nodes.now) × ((text : List ℕ) × WritesJoined list.now nodes.now code.old at i text) }
    ensures { (text : List ℕ) → WritesJoined list.now nodes.now code.old at i text
        → Wrote code.old i (as_joined (code_of (keys_in list.now) (tree_at text nodes.now at))) code.new result }
{
    let end = walk::write_code(list, nodes, at, i + 1, code);
    let after = put::write(put::plain(operations::AND, 0, 0), end, code);
    put::write(put::skip(false, false, end - i), i, code);
    after
}
