// Entries against blocks: the refusals of a load, then those of the entry or the entries.
ghost use Rattle.std.specs.Prelude.{◌≡◌};
ghost use Rattle.paper.specs.Answers.{ok};
ghost use Rattle.paper.specs.Keys.{keys};
ghost use Rattle.paper.specs.Loading.{loaded};
ghost use Rattle.paper.specs.Promised.{RunPromised, RunAllPromised};
ghost use Rattle.keys.specs.Says.{keys_in};

use crate::loading;
use paper::{Ended, Place, RanAll, Refusal, Verdict, refused};

// One entry, as a table of its own. Only one that is refused is checked once more, for its place.
fn run_one(list: &[u8], blocks: &[u8], entry: &[u8], n: usize) -> Result<Ended, Refusal>
    requires list_value { keys list.now ≡ ok (keys_in list.now) }
    requires blocks_value { loaded (keys_in list.now) blocks.now ≡ ok n }
    ensures { RunPromised list.now blocks.now entry.now result }
{
    let length = entry.len();
    if length != keys::entry_size(list) {
        return Err(Refusal {
            number: refused::ENTRY_LENGTH,
            place: Place::Entry(length),
        });
    }
    let mut answer = [machine::REFUSED; 1];
    let steps = machine::run_each(list, blocks, entry, n, &mut answer) as usize;
    let verdict = match answer[0] {
        machine::ACCEPTED => Verdict::Accepted,
        machine::VIOLATED => Verdict::Violated,
        _ => {
            keys::check_entry(list, entry)?;
            // An entry that conforms has one of the two bytes.
            unreachable!()
        }
    };
    Ok(Ended { verdict, steps })
}

// What the blocks say of an entry, and in how many steps. They are loaded here, whoever loaded them before.
pub fn run(list: &[u8], blocks: &[u8], entry: &[u8]) -> Result<Ended, Refusal>
    ensures { RunPromised list.now blocks.now entry.now result }
{
    let count = loading::load(list, blocks)?;
    run_one(list, blocks, entry, count)
}

// A table, by blocks that are loaded: 19 and 15, then a byte for each entry.
fn run_table(
    list: &[u8],
    blocks: &[u8],
    entries: &[u8],
    n: usize,
    answers: &mut [u8],
) -> Result<RanAll, Refusal>
    requires list_value { keys list.now ≡ ok (keys_in list.now) }
    requires blocks_value { loaded (keys_in list.now) blocks.now ≡ ok n }
    ensures { RunAllPromised list.now blocks.now entries.now answers.old (record { answer = result; bytes = answers.new }) }
{
    let size = keys::entry_size(list);
    let length = entries.len();
    if length % size != 0 {
        return Err(Refusal {
            number: refused::ENTRY_LENGTH,
            place: Place::Entry(length),
        });
    }
    let whole = length / size;
    let room = answers.len();
    if room < whole {
        return Err(Refusal {
            number: refused::BUFFER_SHORT,
            place: Place::Buffer(room),
        });
    }
    let steps = machine::run_each(list, blocks, entries, n, answers);
    Ok(RanAll {
        entries: whole,
        steps,
    })
}

// What the blocks say of each of the entries that lie end to end: a byte for each in `answers`, and how many there are, in how many steps. The blocks
// are loaded once for all of them. Every later byte stays, and all of them on a refusal.
pub fn run_all(
    list: &[u8],
    blocks: &[u8],
    entries: &[u8],
    answers: &mut [u8],
) -> Result<RanAll, Refusal>
    ensures { RunAllPromised list.now blocks.now entries.now answers.old (record { answer = result; bytes = answers.new }) }
{
    let count = loading::load(list, blocks)?;
    run_table(list, blocks, entries, count, answers)
}
