// The calls for C: include/pollux.h says the same in its words.
//
// Each takes every input as a pointer and a length, the length of a table counting its numbers, and answers four numbers by value, `explain` and
// `count` eight, `summarize` seven, `recheck` and `run_all` five, which stand for a result that keeps the promise of the call of `valve` below it
// (specs/Told); `translate`, `print`, `fix_octal` and `pact` also promise what each byte of the buffer holds afterwards, `run_all` what each byte of
// the answers does, and `count`, whose numbers for the parts are a pointer alone, what each of these is.
#![tactic(auto)]

mod answer;
mod counts;
mod heard;
mod reason;
mod recheck;
mod summary;
mod table;
mod told;
mod version;

ghost use Rattle.abi.specs.Told.{ReadTold, CheckTold, JudgeTold, TranslateTold, LoadTold, RunTold, RunAllTold, PrintTold, FixTold, DraftTold, CompareTold, CountTold, ExplainTold, SummarizeTold, RecheckTold};
ghost use Rattle.std.specs.Prelude.{◌≡◌};
ghost use Rattle.abi.specs.Version.{version, version_number};

use crate::answer::PolluxAnswer;
use crate::counts::PolluxCounts;
use crate::reason::PolluxReason;
use crate::recheck::PolluxRechecked;
use crate::summary::PolluxSummary;
use crate::table::PolluxTable;
use paper::Judgement;

// Which version of the product the archive is. A program that links with it can hold this to the number in its header.
#[unsafe(no_mangle)]
pub extern "C" fn pollux_version() -> u64
    ensures { result ≡ version_number version }
{
    version::number()
}

// How many nodes the text's tree has.
#[unsafe(no_mangle)]
pub extern "C" fn pollux_read(text: &[u8]) -> PolluxAnswer
    ensures { ReadTold text.now result }
{
    PolluxAnswer::from(valve::read(text))
}

// Whether the text is good for the list.
#[unsafe(no_mangle)]
pub extern "C" fn pollux_check(text: &[u8], list: &[u8]) -> PolluxAnswer
    ensures { CheckTold text.now list.now result }
{
    PolluxAnswer::from(valve::check(text, list))
}

// What the text says of an entry.
#[unsafe(no_mangle)]
pub extern "C" fn pollux_judge(text: &[u8], list: &[u8], entry: &[u8]) -> PolluxAnswer
    ensures { JudgeTold text.now list.now entry.now result }
{
    PolluxAnswer::from(valve::judge(text, list, entry))
}

// How many instructions were written to the buffer.
#[unsafe(no_mangle)]
pub extern "C" fn pollux_translate(text: &[u8], list: &[u8], buffer: &mut [u8]) -> PolluxAnswer
    ensures { TranslateTold text.now list.now buffer.old buffer.new result }
{
    PolluxAnswer::from(valve::translate(text, list, buffer))
}

// How many instructions the blocks hold.
#[unsafe(no_mangle)]
pub extern "C" fn pollux_load(list: &[u8], blocks: &[u8]) -> PolluxAnswer
    ensures { LoadTold list.now blocks.now result }
{
    PolluxAnswer::from(valve::load(list, blocks))
}

// What the blocks say of an entry, and how many instructions were carried out.
#[unsafe(no_mangle)]
pub extern "C" fn pollux_run(list: &[u8], blocks: &[u8], entry: &[u8]) -> PolluxAnswer
    ensures { RunTold list.now blocks.now entry.now result }
{
    PolluxAnswer::from(valve::run(list, blocks, entry))
}

// How many entries there are, laid end to end, and how many instructions were carried out for all of them. What the blocks say of each stands in
// its byte of the answers.
#[unsafe(no_mangle)]
pub extern "C" fn pollux_run_all(
    list: &[u8],
    blocks: &[u8],
    entries: &[u8],
    answers: &mut [u8],
) -> PolluxTable
    ensures { RunAllTold list.now blocks.now entries.now answers.old answers.new result }
{
    PolluxTable::from(valve::run_all(list, blocks, entries, answers))
}

// How many bytes the text's print has, which stands in the buffer.
#[unsafe(no_mangle)]
pub extern "C" fn pollux_print(text: &[u8], buffer: &mut [u8]) -> PolluxAnswer
    ensures { PrintTold text.now buffer.old buffer.new result }
{
    PolluxAnswer::from(valve::print(text, buffer))
}

// How many bytes the text has with its octal numerals in hex, which stands so in the buffer.
#[unsafe(no_mangle)]
pub extern "C" fn pollux_fix_octal(text: &[u8], buffer: &mut [u8]) -> PolluxAnswer
    ensures { FixTold text.now buffer.old buffer.new result }
{
    PolluxAnswer::from(valve::fix_octal(text, buffer))
}

// How many bytes the text of a contract has, which stands in the buffer.
#[unsafe(no_mangle)]
pub extern "C" fn pollux_pact(
    contract: &[u8],
    table: &[u64],
    names: &[u8],
    buffer: &mut [u8],
) -> PolluxAnswer
    ensures { DraftTold contract.now table.now names.now buffer.old buffer.new result }
{
    PolluxAnswer::from(valve::pact(contract, table, names, buffer))
}

// Whether the blocks are the text's translation, its parts in some order.
#[unsafe(no_mangle)]
pub extern "C" fn pollux_compare(text: &[u8], list: &[u8], blocks: &[u8]) -> PolluxAnswer
    ensures { CompareTold text.now list.now blocks.now result }
{
    PolluxAnswer::from(valve::compare(text, list, blocks))
}

// How many of the entries, which are laid end to end, are accepted, violated and refused, and the bytes of a last one that is cut. For each part of the
// text the number of conforming entries on which it is false stands in `parts`.
#[unsafe(no_mangle)]
pub extern "C" fn pollux_count(
    text: &[u8],
    list: &[u8],
    entries: &[u8],
    parts: &mut [u64; parts::MOST_PARTS],
) -> PolluxCounts
    ensures { CountTold text.now list.now entries.now parts.old parts.new result }
{
    PolluxCounts::from(valve::count(text, list, entries, parts))
}

// What broke: the part that is false or the key whose record is bad, where it stands in the text or the list, and the judgement. A caller makes
// the piece itself from its own pointer.
#[unsafe(no_mangle)]
pub extern "C" fn pollux_explain(text: &[u8], list: &[u8], entry: &[u8]) -> PolluxReason
    ensures { ExplainTold text.now list.now entry.now result }
{
    PolluxReason::from(valve::reason(text, list, entry))
}

// Which keys the text names, how many they are, and whether it names ::priority.
#[unsafe(no_mangle)]
pub extern "C" fn pollux_summarize(text: &[u8], list: &[u8]) -> PolluxSummary
    ensures { SummarizeTold text.now list.now result }
{
    PolluxSummary::from(valve::summarize(text, list))
}

// The earlier answer, if it still holds for the new entry; else what the text says of that.
#[unsafe(no_mangle)]
pub extern "C" fn pollux_recheck(
    text: &[u8],
    list: &[u8],
    old: &[u8],
    earlier: PolluxAnswer,
    new: &[u8],
) -> PolluxRechecked
    ensures { RecheckTold text.now list.now old.now earlier new.now result }
{
    PolluxRechecked::from(valve::recheck(text, list, old, Judgement::from(earlier), new))
}
