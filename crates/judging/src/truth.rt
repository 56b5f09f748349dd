// Whether a tree is true: the walk of joins, which needs no more than a bool of each operand.
ghost use Rattle.std.specs.Prelude.{◌≡◌, List, ℕ, ◌+◌, ◌*◌, ◌≤◌, length};
ghost use Rattle.paper.specs.Meaning.{value_of, connective};
ghost use Rattle.keys.specs.Says.{keys_in};
ghost use Rattle.operands.specs.Conforming.{entry_in, Conforming};
ghost use Rattle.trees.specs.declared.node.Operator.TheVariants.{Compares};
ghost use Rattle.trees.specs.Standing.{join_meant, operator_on, tree_at};
ghost use Rattle.trees.specs.Marks.{Marked};
ghost use Rattle.judging.specs.Truths as truths;
ghost use Rattle.judging.specs.Truths.{IsTruth};

use crate::{leaf, walk};
use trees::{Comparison, Join, Node, Operator, Prefix};

// Whether a join is settled by its left operand.
fn settles(o: Join, a: bool) -> bool
    ensures { result ≡ truths.settles (connective (join_meant o)) a }
{
    match o {
        Join::Sequel | Join::And | Join::Implies => !a,
        Join::Or => a,
    }
}

// What a join is worth that its left operand settles.
fn settled(o: Join) -> bool
    ensures { result ≡ truths.settled (connective (join_meant o)) }
{
    matches!(o, Join::Or | Join::Implies)
}

// Whether a comparison of the trees at two nodes is true.
pub(crate) fn compared(
    list: &[u8],
    entry: &[u8],
    nodes: &[u32],
    c: Comparison,
    left: usize,
    right: usize,
) -> bool
    requires { (left * 8 + 8 ≤ length nodes.now) × (right * 8 + 8 ≤ length nodes.now) × Conforming list.now entry.now }
    ensures { (text : List ℕ) → Marked (keys_in list.now) text nodes.now (left + 1)
        → Marked (keys_in list.now) text nodes.now (right + 1) → (at : ℕ)
        → IsTruth (value_of (keys_in list.now) (entry_in list.now entry.now)
        (operator_on at (Compares c) (tree_at text nodes.now left) (tree_at text nodes.now right))) result }
{
    let a = walk::operand_value(list, entry, nodes, left);
    let b = walk::operand_value(list, entry, nodes, right);
    a.compares(c.number(), b)
}

// Whether the tree at a node is true on an entry, where it is worth a truth. The right operand of a join is walked only where the left one
// does not settle it.
pub(crate) fn truth_at(list: &[u8], entry: &[u8], nodes: &[u32], at: usize) -> bool
    requires { (at * 8 + 8 ≤ length nodes.now) × Conforming list.now entry.now }
    ensures { (text : List ℕ) → Marked (keys_in list.now) text nodes.now (at + 1)
        → IsTruth (value_of (keys_in list.now) (entry_in list.now entry.now) (tree_at text nodes.now at)) result }
{
    let n = Node::read(nodes, at);
    match n {
        Node::Without => {
            let worth = leaf::leaf_value(list, entry, nodes, at);
            worth.is_true()
        }
        Node::Before(o) => match o {
            Prefix::Not => !truth_at(list, entry, nodes, at - 1),
            // No number is a truth.
            Prefix::Minus => false,
        },
        Node::Between(o, left) => match o {
            Operator::Joins(j) => {
                if settles(j, truth_at(list, entry, nodes, left)) {
                    return settled(j);
                }
                truth_at(list, entry, nodes, at - 1)
            }
            Operator::Compares(c) => compared(list, entry, nodes, c, left, at - 1),
        },
    }
}
