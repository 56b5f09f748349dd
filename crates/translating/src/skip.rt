// The skip of a join, which stands directly after the left operand's code.
ghost use Rattle.std.specs.Prelude.{◌+◌, ◌*◌, ◌≤◌, length};
ghost use Rattle.translating.specs.Writing.{Room, Wrote};
ghost use Rattle.translating.specs.Own.{operator_skips, skips_at};

use crate::{operator, put};
use trees::{Node, Operator};

fn write_operator_skip(o: Operator, over: usize, i: usize, code: &mut [u8]) -> usize
    requires { Room code.old i (operator_skips o over) }
    ensures { Wrote code.old i (operator_skips o over) code.new result }
{
    match o {
        Operator::Joins(j) => put::write(operator::skip_parts(j, over), i, code),
        Operator::Compares(_) => i,
    }
}

// Writes it, over so many instructions, as instruction number `i`, and gives the number after it. Of a node that is no join nothing is written.
pub(crate) fn write_skip(nodes: &[u32], at: usize, over: usize, i: usize, code: &mut [u8]) -> usize
    requires { (at * 8 + 8 ≤ length nodes.now) × Room code.old i (skips_at nodes.now at over) }
    ensures { Wrote code.old i (skips_at nodes.now at over) code.new result }
{
    match Node::read(nodes, at) {
        Node::Without | Node::Before(_) => i,
        Node::Between(o, _) => write_operator_skip(o, over, i, code),
    }
}
