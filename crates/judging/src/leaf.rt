// Nodes with no operand.
ghost use Rattle.std.specs.Prelude.{◌+◌, ◌*◌, ◌≤◌, length};
ghost use Rattle.keys.specs.Says.{keys_in};
ghost use Rattle.values.specs.Held.{held, Is};
ghost use Rattle.operands.specs.Conforming.{entry_in, Conforming};
ghost use Rattle.trees.specs.Marks.{operand_at};
ghost use Rattle.judging.specs.Values.{operand_value};

use number::Magnitude;
use trees::Operand;
use values::Cell;

// By its marks. An attribute is worth the priority, whatever it is called: no other has a value.
pub(crate) fn leaf_value(list: &[u8], entry: &[u8], nodes: &[u32], i: usize) -> Cell
    requires { (i * 8 + 8 ≤ length nodes.now) × Conforming list.now entry.now }
    ensures { Is (operand_value (keys_in list.now) (entry_in list.now entry.now) (operand_at nodes.now i)) (held result) }
{
    let operand = Operand::read(nodes, i);
    match operand {
        Operand::Truth(b) => Cell::truth(b),
        Operand::Number(a, b, c, d) => Cell::whole(Magnitude {
            limbs: [a, b, c, d],
        }),
        Operand::Key(k) => operands::bare_cell(list, entry, k),
        Operand::Field(k, f) => operands::field_cell(list, entry, f, k),
        Operand::Attribute(_) => operands::priority_cell(entry),
        Operand::UnknownKey | Operand::UnknownField => Cell::truth(false),
    }
}
