// A type and a floor in one number, so that an array of them is cleared at once: 0 is a bool on floor 0.
//
// The floor of what is held is how much of it lies below the bools on top. The load check keeps it beside each type, for what is held up
// to that one.
ghost use Rattle.std.specs.Prelude.{◌≡◌, ◌<◌};
ghost use Rattle.values.specs.Typed.{ty_meant};
ghost use Rattle.machine.specs.Following.{floors};
ghost use Rattle.machine.specs.Packed.{ty_in, floor_in};

use values::numbering;
use values::types::Type;

// More than the highest floor, 384.
pub const FLOORS: u32 = 512;

// A type on a floor.
pub(crate) fn packed(t: Type, floor: u32) -> u32
    requires { floor < floors }
    ensures { (ty_in result ≡ ty_meant t) × (floor_in result ≡ floor) }
{
    numbering::number_of(t) * FLOORS + floor
}

// The type of a cell.
pub(crate) fn type_in(cell: u32) -> Type
    ensures { ty_meant result ≡ ty_in cell }
{
    numbering::numbered(cell / FLOORS)
}

// The floor of a cell.
pub(crate) fn floor_in(cell: u32) -> u32
    ensures { result ≡ floor_in cell }
{
    cell % FLOORS
}
