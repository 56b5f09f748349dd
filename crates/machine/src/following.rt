// The types of what would be held, followed from instruction to instruction, with a mark for each point of the way: how much is held there,
// and its floor (packing.rt). A skip leaves a bool on top, and no instruction makes anything else of a bool; so at a skip and at its
// landing the same types are held where the marks are the same.
ghost use Rattle.std.specs.Prelude.{◌≡◌, ◌+◌, ◌*◌, ◌<◌, ◌≤◌, length, if◌then◌else◌, nat_eq};
ghost use Rattle.std.proofs.Math.Option.{some};
ghost use Rattle.paper.specs.Code.{most_held, action_of, type_action};
ghost use Rattle.paper.specs.Blocks.{in_block, blocks_in};
ghost use Rattle.keys.specs.Says.{keys_in};
ghost use Rattle.values.specs.Typed.{ty_meant, typing_meant};
ghost use Rattle.machine.specs.Acting.{gives};
ghost use Rattle.machine.specs.Decoded.{instruction_meant};
ghost use Rattle.machine.specs.Following.{floors, Followed};

use crate::decoding::instruction_at;
use crate::holding::{MOST_HELD, below};
use crate::instruction::{Instruction, narrow};
use crate::packing::{FLOORS, floor_in, packed, type_in};
use operands::{bare_type, field_type_at};
use values::operators;
use values::types::{Type, is_bool};

// The mark of one bool and nothing else.
pub const ONE_BOOL: u32 = FLOORS;

// What an instruction leaves, of the types of its lowest operand and its uppermost.
fn typed(list: &[u8], instruction: Instruction, low: Type, top: Type) -> Option<Type>
    ensures { typing_meant result ≡ gives (action_of (type_action (keys_in list.now)) (some (instruction_meant instruction))) (ty_meant low) (ty_meant top) }
{
    match instruction {
        Instruction::PushBool(_) => Some(Type::Bool),
        Instruction::PushInt(_) | Instruction::PushPriority => Some(Type::Int),
        Instruction::PushKey(k) => bare_type(list, k),
        Instruction::PushField(field, k) => field_type_at(list, field, k),
        Instruction::Not | Instruction::Skip { .. } => operators::not_type(low),
        Instruction::Negate => operators::negate_type(low),
        Instruction::Convert(kind, width) => operators::convert_type(kind, narrow(width), low),
        Instruction::Compare(comparison) => operators::compare_type(comparison, low, top),
        Instruction::Connect(_) => operators::join_type(low, top),
    }
}

// The floor of what is held up to a place: that of what lies under it where there is a bool, and else the place's own height.
fn floor_on(truth: bool, base: usize, under: u32) -> u32
    requires { base < most_held }
    ensures { result ≡ (if truth then (if nat_eq base 0 then 0 else under) else base + 1) }
{
    if !truth {
        base as u32 + 1
    } else if base == 0 {
        0
    } else {
        under
    }
}

// The mark of a height and a floor.
fn mark_of(height: usize, floor: u32) -> u32
    requires { (height ≤ most_held) × (floor ≤ most_held) }
    ensures { result ≡ height * floors + floor }
{
    height as u32 * FLOORS + floor
}

// The number of the first instruction that fails by itself, or n; each point up to it is marked.
pub(crate) fn follow(list: &[u8], blocks: &[u8], n: usize, marks: &mut [u32]) -> usize
    requires { (n ≤ in_block * blocks_in blocks.now) × (n < length marks.old) }
    ensures { Followed (keys_in list.now) blocks.now n marks.new result }
{
    let mut stack = [0u32; MOST_HELD];
    let mut height = 0;
    marks[0] = 0;
    for i in 0..n {
        let Some(instruction) = instruction_at(blocks, i, n - i - 1) else {
            return i;
        };
        let need = instruction.takes();
        if height < need {
            return i;
        }
        let base = height - need;
        if MOST_HELD <= base {
            return i;
        }
        let low = type_in(stack[base]);
        let top = type_in(stack[below(height)]);
        let Some(left) = typed(list, instruction, low, top) else {
            return i;
        };
        let floor = floor_on(is_bool(left), base, floor_in(stack[below(base)]));
        stack[base] = packed(left, floor);
        height = base + 1;
        marks[i + 1] = mark_of(height, floor);
    }
    n
}
