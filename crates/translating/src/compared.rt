// A comparison of two leaves, which almost every comparison is: both are written where they stand, without a walk.
ghost use Rattle.std.specs.Prelude.{◌≡◌, true, ◌&&◌, List, ℕ, ◌+◌, ◌*◌, ◌-◌, ◌≤◌, length};
ghost use Rattle.paper.specs.Translating.{code_of};
ghost use Rattle.keys.specs.Says.{keys_in};
ghost use Rattle.trees.specs.Nodes.{node_at};
ghost use Rattle.trees.specs.Standing.{tree_at};
ghost use Rattle.translating.specs.Compared.{ComparesAt, is_leaf};
ghost use Rattle.translating.specs.Writing.{Writes, Wrote};

use crate::{change, own};
use trees::Node;

fn is_leaf(nodes: &[u32], at: usize) -> bool
    requires { at * 8 + 8 ≤ length nodes.now }
    ensures { result ≡ is_leaf (node_at nodes.now at) }
{
    matches!(Node::read(nodes, at), Node::Without)
}

pub(crate) fn both_leaves(nodes: &[u32], left: usize, right: usize) -> bool
    requires { (left * 8 + 8 ≤ length nodes.now) × (right * 8 + 8 ≤ length nodes.now) }
    ensures { result ≡ (is_leaf (node_at nodes.now left) && is_leaf (node_at nodes.now right)) }
{
    is_leaf(nodes, left) && is_leaf(nodes, right)
}

// Writes the comparison at node `at` from instruction number `i` on, and gives the number after it. What the leaves change to is asked for once.
pub(crate) fn write_compared(
    list: &[u8],
    nodes: &[u32],
    at: usize,
    left: usize,
    i: usize,
    code: &mut [u8],
) -> usize
    requires compares_at { ComparesAt nodes.now at left }
    requires at_value { (is_leaf (node_at nodes.now left) && is_leaf (node_at nodes.now (at - 1))) ≡ true }
    requires at_in_bounds { (at * 8 + 8 ≤ length nodes.now) × ((text : List ℕ) × Writes list.now nodes.now code.old at i text) }
    ensures { (text : List ℕ) → Writes list.now nodes.now code.old at i text
        → Wrote code.old i (code_of (keys_in list.now) (tree_at text nodes.now at)) code.new result }
{
    let changes = change::changes_at(list, nodes, left, at - 1);
    let after_left = own::write_own(nodes, left, i, code);
    let before_right = change::write_change(changes.left, after_left, code);
    let after_right = own::write_own(nodes, at - 1, before_right, code);
    let before_own = change::write_change(changes.right, after_right, code);
    own::write_own(nodes, at, before_own, code)
}
