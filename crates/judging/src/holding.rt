// Whether a tree is true on an entry.
ghost use Rattle.std.specs.Prelude.{◌≡◌, List, ℕ, ◌+◌, ◌*◌, ◌≤◌, length};
ghost use Rattle.paper.specs.Answers.{ok};
ghost use Rattle.paper.specs.Types.{typed};
ghost use Rattle.keys.specs.Says.{keys_in};
ghost use Rattle.operands.specs.Conforming.{Conforming};
ghost use Rattle.trees.specs.Standing.{tree_at};
ghost use Rattle.trees.specs.Marks.{Marked};
ghost use Rattle.judging.specs.Holding.{tree_holds};

use crate::truth;
use trees::{Node, Operator};

// Whether the tree at a node, which has the right types, is true on an entry. A tree that is just a comparison is asked here: called from a second
// place, `compared` stays out of the frame that the walk has at each level.
pub fn holds(list: &[u8], entry: &[u8], nodes: &[u32], at: usize) -> bool
    requires { (at * 8 + 8 ≤ length nodes.now) × Conforming list.now entry.now }
    ensures { (text : List ℕ) → typed (keys_in list.now) (tree_at text nodes.now at) ≡ ok tt
        → Marked (keys_in list.now) text nodes.now (at + 1)
        → result ≡ tree_holds text list.now entry.now nodes.now at }
{
    let n = Node::read(nodes, at);
    let Node::Between(o, left) = n else {
        return truth::truth_at(list, entry, nodes, at);
    };
    let Operator::Compares(c) = o else {
        return truth::truth_at(list, entry, nodes, at);
    };
    truth::compared(list, entry, nodes, c, left, at - 1)
}
