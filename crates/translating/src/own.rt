// The instruction of a node itself, which stands after its operands' code.
ghost use Rattle.std.specs.Prelude.{◌+◌, ◌*◌, ◌≤◌, length};
ghost use Rattle.translating.specs.Writing.{Room, Wrote};
ghost use Rattle.translating.specs.Own.{own_at};

use crate::{leaf, operator, put};
use trees::Node;

// Writes it as instruction number `i`, and gives the number after it.
pub(crate) fn write_own(nodes: &[u32], at: usize, i: usize, code: &mut [u8]) -> usize
    requires { (at * 8 + 8 ≤ length nodes.now) × Room code.old i (own_at nodes.now at) }
    ensures { Wrote code.old i (own_at nodes.now at) code.new result }
{
    match Node::read(nodes, at) {
        Node::Without => leaf::write_leaf(nodes, at, i, code),
        Node::Before(o) => put::write(operator::prefix_parts(o), i, code),
        Node::Between(o, _) => put::write(operator::operator_parts(o), i, code),
    }
}
