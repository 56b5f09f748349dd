// Nodes with no operand.
ghost use Rattle.std.specs.Prelude.{◌+◌, ◌*◌, ◌≤◌, length};
ghost use Rattle.trees.specs.Marks.{operand_at};
ghost use Rattle.translating.specs.Writing.{Room, Wrote};
ghost use Rattle.translating.specs.Own.{operand_code};

use crate::put;
use number::Magnitude;
use paper::operations;
use trees::Operand;

// By its marks. A name of nothing, which no typed tree has, writes nothing.
pub(crate) fn write_leaf(nodes: &[u32], at: usize, i: usize, code: &mut [u8]) -> usize
    requires { (at * 8 + 8 ≤ length nodes.now) × Room code.old i (operand_code (operand_at nodes.now at)) }
    ensures { Wrote code.old i (operand_code (operand_at nodes.now at)) code.new result }
{
    match Operand::read(nodes, at) {
        Operand::Truth(b) => put::write(put::push_bool(b), i, code),
        Operand::Number(a, b, c, d) => put::write(
            put::push_int(Magnitude {
                limbs: [a, b, c, d],
            }),
            i,
            code,
        ),
        Operand::Key(k) => put::write(put::plain(operations::PUSH_KEY, 0, k), i, code),
        Operand::Field(k, f) => put::write(put::plain(operations::PUSH_FIELD, f, k), i, code),
        Operand::Attribute(_) => put::write(put::plain(operations::PUSH_PRIORITY, 0, 0), i, code),
        Operand::UnknownKey | Operand::UnknownField => i,
    }
}
