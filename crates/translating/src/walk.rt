// The walk: the left operand's code, its conversion, the right one's, its conversion, the node's own. A join has no conversions, but a skip
// after the left operand, whose place is left free until it is known how far the skip reaches.
ghost use Rattle.std.specs.Prelude.{List, ℕ, ◌+◌, ◌*◌, ◌≤◌, length};
ghost use Rattle.paper.specs.Translating.{code_of};
ghost use Rattle.keys.specs.Says.{keys_in};
ghost use Rattle.trees.specs.Standing.{tree_at};
ghost use Rattle.translating.specs.Compared.{ComparesAt};
ghost use Rattle.translating.specs.Writing.{Writes, Wrote};

use crate::{change, compared, own, skip};
use trees::{Node, Operator};

// Writes the code of the tree at node `at` from instruction number `i` on, and gives the number after it. The tree must have a type, by
// the marks of its names. A comparison, as most parts of a text are, is written at once. That `write_comparison` is called from here too
// keeps it out of the walk's frame, of which there may be as many as there are joins.
pub fn write_code(list: &[u8], nodes: &[u32], at: usize, i: usize, code: &mut [u8]) -> usize
    requires { (at * 8 + 8 ≤ length nodes.now) × ((text : List ℕ) × Writes list.now nodes.now code.old at i text) }
    ensures { (text : List ℕ) → Writes list.now nodes.now code.old at i text
        → Wrote code.old i (code_of (keys_in list.now) (tree_at text nodes.now at)) code.new result }
{
    let Node::Between(Operator::Compares(_), left) = Node::read(nodes, at) else {
        return write_tree(list, nodes, at, i, code);
    };
    write_comparison(list, nodes, at, left, i, code)
}

// The same, by the walk.
#[cycle(write_comparison_write_tree)]
fn write_tree(list: &[u8], nodes: &[u32], at: usize, i: usize, code: &mut [u8]) -> usize
    requires { (at * 8 + 8 ≤ length nodes.now) × ((text : List ℕ) × Writes list.now nodes.now code.old at i text) }
    ensures { (text : List ℕ) → Writes list.now nodes.now code.old at i text
        → Wrote code.old i (code_of (keys_in list.now) (tree_at text nodes.now at)) code.new result }
{
    match Node::read(nodes, at) {
        Node::Without => own::write_own(nodes, at, i, code),
        Node::Before(_) => {
            let after = write_tree(list, nodes, at - 1, i, code);
            own::write_own(nodes, at, after, code)
        }
        Node::Between(Operator::Joins(_), left) => {
            let after_left = write_tree(list, nodes, left, i, code);
            let before_own = write_tree(list, nodes, at - 1, after_left + 1, code);
            let end = own::write_own(nodes, at, before_own, code);
            skip::write_skip(nodes, at, before_own - after_left, after_left, code);
            end
        }
        Node::Between(Operator::Compares(_), left) => {
            write_comparison(list, nodes, at, left, i, code)
        }
    }
}

// The same of a comparison. Where the walk goes on below it, what its operands change to is asked for twice, since a frame holds what it
// keeps at each level.
#[cycle(write_comparison_write_tree)]
fn write_comparison(
    list: &[u8],
    nodes: &[u32],
    at: usize,
    left: usize,
    i: usize,
    code: &mut [u8],
) -> usize
    requires compares_at { ComparesAt nodes.now at left }
    requires at_in_bounds { (at * 8 + 8 ≤ length nodes.now) × ((text : List ℕ) × Writes list.now nodes.now code.old at i text) }
    ensures { (text : List ℕ) → Writes list.now nodes.now code.old at i text
        → Wrote code.old i (code_of (keys_in list.now) (tree_at text nodes.now at)) code.new result }
{
    if compared::both_leaves(nodes, left, at - 1) {
        return compared::write_compared(list, nodes, at, left, i, code);
    }
    let after_left = write_tree(list, nodes, left, i, code);
    let changes = change::changes_at(list, nodes, left, at - 1);
    let before_right = change::write_change(changes.left, after_left, code);
    let after_right = write_tree(list, nodes, at - 1, before_right, code);
    let again = change::changes_at(list, nodes, left, at - 1);
    let before_own = change::write_change(again.right, after_right, code);
    own::write_own(nodes, at, before_own, code)
}
