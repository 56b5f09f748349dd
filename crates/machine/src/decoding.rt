// Instructions as they stand in blocks, 20 bytes each: operation, detail byte, two-byte operand, 16-byte constant.
ghost use Rattle.std.specs.Prelude.{◌≡◌, ℕ, ◌+◌, ◌^◌, ◌<◌, ◌≤◌, length};
ghost use Rattle.std.proofs.Math.Option.{some};
ghost use Rattle.paper.specs.Code as paper;
ghost use Rattle.paper.specs.Code.{instruction_size, parts_at, decode};
ghost use Rattle.paper.specs.Loading.{instruction_at};
ghost use Rattle.machine.specs.Following.{over_in};
ghost use Rattle.machine.specs.Decoded.{parts_meant, instruction_meant, read_meant};

use crate::instruction::Instruction;
use blocks::{Block, two_bytes};
use keys::KeyRecord;
use number::Magnitude;
use paper::{comparisons, fields, kinds, operations};
use values::connectives;

const MOST_WIDTH: usize = KeyRecord::WIDEST as usize;

// A constant whose first byte is 1, and whose others are 0.
const FIRST_BYTE: Magnitude = Magnitude {
    limbs: [0, 0, 0, 0x0100_0000],
};

#[derive(Clone, Copy)]
struct Parts {
    operation: u8,
    detail: u8,
    operand: usize,
    constant: Magnitude,
}

impl Parts {
    // Those that stand at an offset.
    fn at(blocks: &[u8], at: usize) -> Parts
        requires { at + instruction_size ≤ length blocks.now }
        ensures { parts_meant result ≡ parts_at blocks.now at }
    {
        Parts {
            operation: blocks[at],
            detail: blocks[at + 1],
            operand: two_bytes(blocks, at + 2),
            constant: Magnitude::from_bytes(blocks, at + 4),
        }
    }

    // What they spell, where so many instructions are left after it.
    fn instruction(self, left: usize) -> Option<Instruction>
        ensures { read_meant result ≡ decode left (parts_meant self) }
    {
        let Parts {
            operation,
            detail,
            operand,
            constant,
        } = self;
        let no_detail = detail == 0;
        let no_operand = operand == 0;
        let no_constant = constant.is_zero();
        let bare = no_detail & no_operand & no_constant;
        match operation {
            operations::PUSH_BOOL => (no_detail & no_constant & (operand <= 1)).then_some(
                Instruction::PushBool(operand == 1),
            ),
            operations::PUSH_INT => {
                (no_detail & no_operand).then_some(Instruction::PushInt(constant))
            }
            operations::PUSH_KEY => {
                (no_detail & no_constant).then_some(Instruction::PushKey(operand))
            }
            operations::PUSH_FIELD => (no_constant & (detail <= fields::HIGH)).then_some(
                Instruction::PushField(detail, operand),
            ),
            operations::PUSH_PRIORITY => bare.then_some(Instruction::PushPriority),
            operations::NOT => bare.then_some(Instruction::Not),
            operations::NEGATE => bare.then_some(Instruction::Negate),
            operations::CONVERT => (no_constant
                & (detail <= kinds::OPTIONAL)
                & (1 <= operand)
                & (operand <= MOST_WIDTH)).then_some(Instruction::Convert(
                detail,
                (operand % 256) as u8,
            )),
            operations::COMPARE => (no_operand
                & no_constant
                & (detail <= comparisons::AT_MOST)).then_some(Instruction::Compare(detail)),
            operations::AND => bare.then_some(Instruction::Connect(connectives::BOTH)),
            operations::OR => bare.then_some(Instruction::Connect(connectives::EITHER)),
            operations::IMPLIES => bare.then_some(Instruction::Connect(connectives::IF_THEN)),
            operations::SKIP => {
                let to = constant.equal(FIRST_BYTE);
                ((1 <= operand)
                    & (operand <= left)
                    & ((detail <= 1) & (to | no_constant))).then_some(Instruction::Skip {
                    on: detail == 1,
                    to,
                    over: operand,
                })
            }
            _ => None,
        }
    }
}

// The offset of the first byte of instruction number i.
pub fn place_of(i: usize) -> usize
    requires { instruction_at i < 2 ^ 64 }
    ensures { result ≡ instruction_at i }
{
    Block::SIZE * (i / Block::INSTRUCTIONS)
        + Block::HEAD
        + Block::INSTRUCTION * (i % Block::INSTRUCTIONS)
}

// How many instructions the one of number i passes over, if it is an instruction.
pub(crate) fn over_at(blocks: &[u8], i: usize) -> usize
    requires { instruction_at i + instruction_size ≤ length blocks.now }
    ensures { (result ≡ over_in (parts_at blocks.now (instruction_at i))) × (result < 2 ^ 16) }
{
    let at = place_of(i);
    if blocks[at] == operations::SKIP {
        return two_bytes(blocks, at + 2);
    }
    0
}

// The instruction number i of blocks, where so many are left after it.
pub(crate) fn instruction_at(blocks: &[u8], i: usize, left: usize) -> Option<Instruction>
    requires { instruction_at i + instruction_size ≤ length blocks.now }
    ensures { read_meant result ≡ decode left (parts_at blocks.now (instruction_at i)) }
{
    Parts::at(blocks, place_of(i)).instruction(left)
}

// The instruction number i of blocks that load. What stands there is an instruction, so no part is tested, and the constant is read only
// where it is used.
pub(crate) fn loaded_at(blocks: &[u8], i: usize) -> Instruction
    requires { instruction_at i + instruction_size ≤ length blocks.now }
    ensures { (left : ℕ) (x : paper.Instruction) → decode left (parts_at blocks.now (instruction_at i)) ≡ some x → instruction_meant result ≡ x }
{
    let at = place_of(i);
    let operation = blocks[at];
    let detail = blocks[at + 1];
    let operand = two_bytes(blocks, at + 2);
    match operation {
        operations::PUSH_BOOL => Instruction::PushBool(operand == 1),
        operations::PUSH_INT => Instruction::PushInt(Magnitude::from_bytes(blocks, at + 4)),
        operations::PUSH_KEY => Instruction::PushKey(operand),
        operations::PUSH_FIELD => Instruction::PushField(detail, operand),
        operations::PUSH_PRIORITY => Instruction::PushPriority,
        operations::NOT => Instruction::Not,
        operations::NEGATE => Instruction::Negate,
        operations::CONVERT => Instruction::Convert(detail, (operand % 256) as u8),
        operations::COMPARE => Instruction::Compare(detail),
        operations::AND => Instruction::Connect(connectives::BOTH),
        operations::OR => Instruction::Connect(connectives::EITHER),
        operations::IMPLIES => Instruction::Connect(connectives::IF_THEN),
        // The one operation that is left.
        _ => Instruction::Skip {
            on: detail == 1,
            to: Magnitude::from_bytes(blocks, at + 4).equal(FIRST_BYTE),
            over: operand,
        },
    }
}
