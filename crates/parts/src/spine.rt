// The root of each part: down the left operands of the text's tree, from the last part to the first.
ghost use Rattle.std.specs.Prelude.{◌≡◌, ◌+◌, ◌*◌, ◌-◌, ◌≤◌, length};
ghost use Rattle.paper.specs.Parts.{most_parts};
ghost use Rattle.parts.specs.Spine.{LeftOf, Rooted};
ghost use Rattle.parts.specs.Found.{Noded, Room};

use crate::rows;
use trees::Node;

// The left operand of a node; of a node without one, which no text has there, the first node.
fn left_of(nodes: &[u32], i: usize) -> usize
    requires { i * 8 + 8 ≤ length nodes.now }
    ensures { LeftOf nodes.now i result }
{
    match Node::read(nodes, i) {
        Node::Without | Node::Before(_) => 0,
        Node::Between(_, left) => left,
    }
}

// The right operand: the node before. The first node has none, and no text asks for it.
fn right_of(i: usize) -> usize
    ensures { result ≡ i - 1 }
{
    i.saturating_sub(1)
}

// Stores the roots of n parts, of which the text has so many. Its tree alone does not tell: `(a; b); c` has two, and `a; b; c` three.
pub(crate) fn name_roots(nodes: &[u32], root: usize, parts: &mut [u32], n: usize)
    requires noded { Noded nodes.now root }
    requires room { Room parts.old × (n ≤ most_parts) }
    ensures { Rooted nodes.now root parts.old parts.new n }
{
    let mut at = root;
    for k in (1..n).rev() {
        rows::put_root(parts, k, right_of(at));
        at = left_of(nodes, at);
    }
    if 0 < n {
        rows::put_root(parts, 0, at);
    }
}
