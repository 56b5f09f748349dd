// The walk: a prefix operator and its operand; or the left operand, the operator and the right one, in parentheses where they are needed.
ghost use Rattle.std.specs.Prelude.{◌+◌, ◌*◌, ◌≤◌, length};
ghost use Rattle.paper.specs.Print.{enclosed, looser, print};
ghost use Rattle.trees.specs.Standing.{tree_at};
ghost use Rattle.printing.specs.Writing.{Wrote, rung_meant};

use crate::signs::Rung;
use crate::{leaf, signs};
use trees::Node;

// Writes an operand. It is mostly a leaf, which needs no frame of the walk.
#[cycle(write_operand_write_tree)]
fn write_operand(
    text: &[u8],
    nodes: &[u32],
    node: usize,
    rung: Rung,
    from: usize,
    out: &mut [u8],
) -> usize
    requires { node * 8 + 8 ≤ length nodes.now }
    ensures { Wrote out.old from
        (enclosed (looser (rung_meant rung) (tree_at text.now nodes.now node)) (print (tree_at text.now nodes.now node)))
        out.new result }
{
    let Node::Without = Node::read(nodes, node) else {
        return write_tree(text, nodes, node, rung, from, out);
    };
    leaf::write_leaf(text, nodes, node, from, out)
}

// Writes the print of the tree at a node, in parentheses where the tree is looser than the rung that is asked for.
#[cycle(write_operand_write_tree)]
pub fn write_tree(
    text: &[u8],
    nodes: &[u32],
    node: usize,
    rung: Rung,
    from: usize,
    out: &mut [u8],
) -> usize
    requires { node * 8 + 8 ≤ length nodes.now }
    ensures { Wrote out.old from
        (enclosed (looser (rung_meant rung) (tree_at text.now nodes.now node)) (print (tree_at text.now nodes.now node)))
        out.new result }
{
    match Node::read(nodes, node) {
        Node::Without => leaf::write_leaf(text, nodes, node, from, out),
        Node::Before(o) => {
            let inside = signs::write_prefix(o, from, out);
            write_operand(text, nodes, node - 1, Rung::Tightest, inside, out)
        }
        Node::Between(o, left) => {
            let needed = signs::is_looser(o, rung);
            let opened = signs::write_needed(needed, b"(", from, out);
            let after_left = write_operand(text, nodes, left, signs::left_rung(o), opened, out);
            let before_right = signs::write_operator(o, after_left, out);
            let rung_right = signs::right_rung(o);
            let after_right = write_operand(text, nodes, node - 1, rung_right, before_right, out);
            signs::write_needed(needed, b")", after_right, out)
        }
    }
}
