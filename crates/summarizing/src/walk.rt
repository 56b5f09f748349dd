// The walk: operands left and right, and what either names.
ghost use Rattle.std.specs.Prelude.{List, ℕ, ◌+◌, ◌*◌, ◌≤◌, length};
ghost use Rattle.paper.specs.Named.{names, marked};
ghost use Rattle.keys.specs.Says.{keys_in};
ghost use Rattle.trees.specs.Standing.{tree_at};
ghost use Rattle.trees.specs.Marks.{operand_at};
ghost use Rattle.typing.specs.Known.{Known};
ghost use Rattle.summarizing.specs.Sums.{Sums, operand_names, operand_marked};

use crate::set;
use paper::Summary;
use trees::{Node, Operand};

// Of a node with no operand, by its marks. A name of nothing, which no typed tree has, names no key.
fn leaf_summary(nodes: &[u32], i: usize) -> Summary
    requires { i * 8 + 8 ≤ length nodes.now }
    ensures { Sums (operand_names (operand_at nodes.now i)) (operand_marked (operand_at nodes.now i)) result }
{
    let operand = Operand::read(nodes, i);
    match operand {
        Operand::Key(k) | Operand::Field(k, _) => set::of_key(k),
        Operand::Attribute(_) => set::of_priority(),
        Operand::Truth(_) | Operand::Number(..) => set::nothing(),
        Operand::UnknownKey | Operand::UnknownField => set::nothing(),
    }
}

// What the tree at a node names. The tree must have a type, by the marks of its names.
pub fn summary_at(nodes: &[u32], at: usize) -> Summary
    requires { at * 8 + 8 ≤ length nodes.now }
    ensures { (list text : List ℕ) → Known list nodes.now at text
        → Sums (names (keys_in list) (tree_at text nodes.now at)) (marked (tree_at text nodes.now at)) result }
{
    let n = Node::read(nodes, at);
    match n {
        Node::Without => leaf_summary(nodes, at),
        Node::Before(_) => summary_at(nodes, at - 1),
        Node::Between(_, left) => {
            let a = summary_at(nodes, left);
            let b = summary_at(nodes, at - 1);
            set::either(a, b)
        }
    }
}
