// The type of a tree that is known to have one, without a walk over its operands.
ghost use Rattle.std.specs.Prelude.{◌≡◌, false, List, ℕ, ◌+◌, ◌*◌, ◌≤◌, length};
ghost use Rattle.paper.specs.Answers.{ok};
ghost use Rattle.paper.specs.Types.{Ty, type_of};
ghost use Rattle.keys.specs.Says.{keys_in};
ghost use Rattle.trees.specs.Nodes.{node_at};
ghost use Rattle.trees.specs.Standing.{tree_at};
ghost use Rattle.trees.specs.Marks.{Marked};
ghost use Rattle.typing.specs.Says.{typed_says, is_minus};

use crate::leaf;
use paper::Refusal;
use trees::{Node, Prefix};
use values::types::Type;

pub(crate) fn is_minus(n: Node) -> bool
    ensures { result ≡ is_minus n }
{
    matches!(n, Node::Before(Prefix::Minus))
}

// Of a node that is no "-": a leaf's own type, and every other operator's is bool.
fn outer_type(list: &[u8], nodes: &[u32], i: usize) -> Result<Type, Refusal>
    requires { (i * 8 + 8 ≤ length nodes.now) × (is_minus (node_at nodes.now i) ≡ false) }
    ensures { (text : List ℕ) → Marked (keys_in list.now) text nodes.now (i + 1) → (a : Ty)
        → type_of (keys_in list.now) (tree_at text nodes.now i) ≡ ok a → typed_says result ≡ ok a }
{
    let n = Node::read(nodes, i);
    match n {
        Node::Without => leaf::leaf_type(list, nodes, i),
        Node::Before(_) | Node::Between(_, _) => Ok(Type::Bool),
    }
}

// The type of the tree at a node, where it has one: "-" has its operand's.
pub fn shallow_type(list: &[u8], nodes: &[u32], at: usize) -> Result<Type, Refusal>
    requires { at * 8 + 8 ≤ length nodes.now }
    ensures { (text : List ℕ) → Marked (keys_in list.now) text nodes.now (at + 1) → (a : Ty)
        → type_of (keys_in list.now) (tree_at text nodes.now at) ≡ ok a → typed_says result ≡ ok a }
{
    // A loop, and no `rev().find(..)`: that such a node is found is known here, and an Option would have to be opened.
    let mut i = at;
    while is_minus(Node::read(nodes, i)) {
        i -= 1;
    }
    outer_type(list, nodes, i)
}
