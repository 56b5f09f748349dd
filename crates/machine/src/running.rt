// The run of loaded blocks on entries, one after the other.
ghost use Rattle.std.specs.Prelude.{◌≡◌, ◌≤◌, length, true};
ghost use Rattle.paper.specs.Answers.{ok};
ghost use Rattle.paper.specs.Keys.{keys};
ghost use Rattle.paper.specs.Meaning.{truth, compare_value};
ghost use Rattle.paper.specs.Code.{comparison_of, most_held};
ghost use Rattle.paper.specs.Loading.{loaded, program, run_along, left_true, steps_taken};
ghost use Rattle.paper.specs.Calls.{over};
ghost use Rattle.paper.specs.Counting.{whole_in};
ghost use Rattle.paper.specs.RunAll.{verdicts_on};
ghost use Rattle.keys.specs.Says.{keys_in, conforms};
ghost use Rattle.operands.specs.Conforming.{entry_in};
ghost use Rattle.values.specs.Held.{held, Is};
ghost use Rattle.machine.specs.Running.{passes, byte_of, TellsOf};

use crate::decoding::loaded_at;
use crate::holding::{MOST_HELD, below};
use crate::instruction::{Instruction, narrow};
use operands::{bare_cell, field_cell, priority_cell};
use values::Cell;

// What is told of an entry, in a byte.
pub const REFUSED: u8 = 0;

pub const ACCEPTED: u8 = 1;

pub const VIOLATED: u8 = 2;

// Whether a comparison holds of its operands. The loop makes its own cell of that, so that the one that `compared` makes is not copied.
fn holds(low: Cell, comparison: u8, top: Cell) -> bool
    ensures { Is (compare_value (comparison_of comparison) (held low) (held top)) (truth result) }
{
    low.compared(comparison, top).is_true()
}

// Whether an entry conforms, so that the blocks can be run on it.
fn enters(list: &[u8], entry: &[u8]) -> bool
    ensures { result ≡ passes (conforms (keys_in list.now) entry.now) }
{
    match keys::check_entry(list, entry) {
        Ok(()) => true,
        Err(_) => false,
    }
}

// The cells of a run, before anything is stored. Made by a function of their own they are cleared all at once. Made by the function with the loops they
// were stored one by one, and the smallest run took 1.4 times as long.
fn cleared() -> [Cell; MOST_HELD]
    ensures { length result ≡ most_held }
{
    [Cell::truth(false); MOST_HELD]
}

// The byte that tells of an entry that conforms, by what its run left.
fn verdict(left: bool) -> u8
    ensures { result ≡ byte_of true left }
{
    if left { ACCEPTED } else { VIOLATED }
}

// What a run left, and its steps.
#[derive(Clone, Copy)]
struct Ran {
    left: bool,
    steps: u64,
}

// The run of n loaded instructions on an entry that conforms. It reads no place of the array that it did not store in.
fn run(list: &[u8], blocks: &[u8], entry: &[u8], n: usize, stack: &mut [Cell; MOST_HELD]) -> Ran
    requires list_value { keys list.now ≡ ok (keys_in list.now) }
    requires blocks_value { loaded (keys_in list.now) blocks.now ≡ ok n }
    requires entry_value { conforms (keys_in list.now) entry.now ≡ ok tt }
    ensures left { result.left ≡ left_true (run_along (keys_in list.now) (entry_in list.now entry.now) (program blocks.now)) }
    ensures steps { result.steps ≡ steps_taken (run_along (keys_in list.now) (entry_in list.now entry.now) (program blocks.now)) }
{
    let mut height = 0;
    let mut i = 0;
    let mut steps = 0;
    // A loop, and no `for`: a skip passes over instructions.
    while i < n {
        let instruction = loaded_at(blocks, i);
        let base = height - instruction.takes();
        let top = below(height);
        let mut over = 0;
        // Each arm stores what it leaves, in the place of its lowest operand. Where the arms hand one cell on to be stored, the compiled
        // code copies it in between, and reads operands that are not used: a fifth of a run.
        match instruction {
            Instruction::PushBool(b) => stack[base] = Cell::truth(b),
            Instruction::PushInt(number) => stack[base] = Cell::whole(number),
            Instruction::PushKey(key) => stack[base] = bare_cell(list, entry, key),
            Instruction::PushField(field, key) => stack[base] = field_cell(list, entry, field, key),
            Instruction::PushPriority => stack[base] = priority_cell(entry),
            Instruction::Not => stack[base] = stack[base].inverted(),
            Instruction::Negate => stack[base] = stack[base].negated(),
            Instruction::Convert(kind, width) => {
                stack[base] = stack[base].converted(kind, narrow(width))
            }
            Instruction::Compare(comparison) => {
                stack[base] = Cell::truth(holds(stack[base], comparison, stack[top]))
            }
            Instruction::Connect(connective) => {
                stack[base] = stack[base].connected(connective, stack[top])
            }
            Instruction::Skip {
                on,
                to,
                over: passed,
            } => {
                if stack[base].is_true() == on {
                    stack[base] = Cell::truth(to);
                    over = passed;
                }
            }
        }
        height = base + 1;
        steps += 1;
        i += 1 + over;
    }
    Ran {
        left: stack[0].is_true(),
        steps,
    }
}

// What is told of an entry: its byte, and the steps of its run.
#[derive(Clone, Copy)]
struct Told {
    byte: u8,
    steps: u64,
}

fn tell(list: &[u8], blocks: &[u8], entry: &[u8], n: usize, stack: &mut [Cell; MOST_HELD]) -> Told
    requires list_value { keys list.now ≡ ok (keys_in list.now) }
    requires blocks_value { loaded (keys_in list.now) blocks.now ≡ ok n }
    ensures { TellsOf (keys_in list.now) blocks.now entry.now result.byte result.steps }
{
    if !enters(list, entry) {
        return Told {
            byte: REFUSED,
            steps: 0,
        };
    }
    let Ran { left, steps } = run(list, blocks, entry, n, stack);
    Told {
        byte: verdict(left),
        steps,
    }
}

// The runs of n loaded instructions on entries that lie end to end: a byte for each of them in `answers`, and the steps of all.
pub fn run_each(list: &[u8], blocks: &[u8], entries: &[u8], n: usize, answers: &mut [u8]) -> u64
    requires list_value { keys list.now ≡ ok (keys_in list.now) }
    requires blocks_value { loaded (keys_in list.now) blocks.now ≡ ok n }
    requires entries_in_bounds { whole_in (keys_in list.now) entries.now ≤ length answers.old }
    ensures value { result ≡ (verdicts_on (keys_in list.now) blocks.now entries.now).steps }
    ensures answers_after { answers.new ≡ over (verdicts_on (keys_in list.now) blocks.now entries.now).bytes answers.old }
{
    let size = keys::entry_size(list);
    // Cleared once for all entries.
    let mut stack = cleared();
    let mut total: u64 = 0;
    for k in 0..entries.len() / size {
        let told = tell(
            list,
            blocks,
            keys::entry_at(entries, k, size),
            n,
            &mut stack,
        );
        answers[k] = told.byte;
        total = total.wrapping_add(told.steps);
    }
    total
}
