// Instructions, by value.
ghost use Rattle.std.specs.Prelude.{◌≡◌, ◌≤◌, min, List};
ghost use Rattle.std.proofs.Math.Option.{some};
ghost use Rattle.paper.specs.Keys.{Key};
ghost use Rattle.paper.specs.Code.{action_of, type_action};
ghost use Rattle.machine.specs.Acting.{takes_of};
ghost use Rattle.machine.specs.Decoded.{instruction_meant};

use keys::KeyRecord;
use number::Magnitude;

// Kinds, fields, comparisons and connectives are held by their numbers in document 01.
#[derive(Clone, Copy)]
pub enum Instruction {
    PushBool(bool),
    PushInt(Magnitude),
    PushKey(usize),
    PushField(u8, usize),
    PushPriority,
    Not,
    Negate,
    // To a kind and a width, where one over 128 is read as 128.
    Convert(u8, u8),
    Compare(u8),
    // By its number in crate values.
    Connect(u8),
    // On which bool it is taken, which bool it then leaves, and how many instructions it passes over.
    Skip { on: bool, to: bool, over: usize },
}

impl Instruction {
    // How many operands it takes.
    pub(crate) fn takes(self) -> usize
        ensures { (ks : List Key) → result ≡ takes_of (action_of (type_action ks) (some (instruction_meant self))) }
    {
        match self {
            Instruction::PushBool(_)
            | Instruction::PushInt(_)
            | Instruction::PushKey(_)
            | Instruction::PushField(_, _)
            | Instruction::PushPriority => 0,
            Instruction::Not
            | Instruction::Negate
            | Instruction::Convert(_, _)
            | Instruction::Skip { .. } => 1,
            Instruction::Compare(_) | Instruction::Connect(_) => 2,
        }
    }
}

// A width as it is read.
pub(crate) fn narrow(width: u8) -> u8
    ensures { (result ≡ min width 128) × (result ≤ 128) }
{
    width.min(KeyRecord::WIDEST)
}
