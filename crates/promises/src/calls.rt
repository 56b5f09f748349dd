// The real calls, held to the demands. Each function calls `valve`, and its contract states for its own inputs what is demanded of what was
// answered, in the words of `paper` (specs/Demands). It holds by the contracts of `valve` alone, so one that is weakened fails here.
ghost use Rattle.paper.specs.Demands.{ReadAnswered, ReadRight, CheckAnswered, CheckedRight, JudgeAnswered, JudgedRight, TranslateAnswered, TranslatedRight, LoadAnswered, RunAnswered, RanRight, PrintAnswered, PrintedRight, FixAnswered, FixesRight, DraftAnswered, DraftsRight, CompareAnswered, CompareRight, CountAnswered, CountRight, ExplainAnswered, ExplainRight, SummarizeAnswered, SummarizeRight, RecheckAnswered, RecheckRight, RunAllAnswered, RunAllRight};
ghost use Rattle.promises.specs.Held.{gave, lent, fixed_to, drafted_to, counted_to, ran_over, Carries};

use blocks::Block;
use paper::{
    Agreement, Counted, Ended, Explanation, Judgement, Place, RanAll, Rechecking, Refusal, Summary,
};

// The most parts that a text has: as many numbers are lent to `count`.
const MOST_PARTS: usize = 512;

// Demands 1 and 2 of `read`.
pub fn read(text: &[u8]) -> Result<usize, Refusal>
    ensures read_answered { ReadAnswered text.now result }
    ensures read_right { ReadRight text.now result }
{
    valve::read(text)
}

// Demands 1 and 2 of `check`.
pub fn check(text: &[u8], list: &[u8]) -> Result<(), Refusal>
    ensures check_answered { CheckAnswered text.now list.now result }
    ensures checked_right { CheckedRight text.now list.now result }
{
    valve::check(text, list)
}

// Demands 1 and 2 of `judge`.
pub fn judge(text: &[u8], list: &[u8], entry: &[u8]) -> Judgement
    ensures judge_answered { JudgeAnswered text.now list.now entry.now result }
    ensures judged_right { JudgedRight text.now list.now entry.now result }
{
    valve::judge(text, list, entry)
}

// Demands 1 and 2 of `translate`.
pub fn translate(text: &[u8], list: &[u8], buffer: &mut [u8]) -> Result<usize, Refusal>
    ensures translate_answered { TranslateAnswered text.now list.now buffer.old (gave result buffer.new) }
    ensures translated_right { TranslatedRight text.now list.now buffer.old (gave result buffer.new) }
{
    valve::translate(text, list, buffer)
}

// Demand 1 of `load`.
pub fn load(list: &[u8], blocks: &[u8]) -> Result<usize, Refusal>
    ensures { LoadAnswered list.now blocks.now result }
{
    valve::load(list, blocks)
}

// Demands 1 and 2 of `run`.
pub fn run(list: &[u8], blocks: &[u8], entry: &[u8]) -> Result<Ended, Refusal>
    ensures run_answered { RunAnswered list.now blocks.now entry.now result }
    ensures ran_right { RanRight list.now blocks.now entry.now result }
{
    valve::run(list, blocks, entry)
}

// Demands 1 and 2 of `print`.
pub fn print(text: &[u8], buffer: &mut [u8]) -> Result<usize, Refusal>
    ensures print_answered { PrintAnswered text.now buffer.old (lent result buffer.new) }
    ensures printed_right { PrintedRight text.now buffer.old (lent result buffer.new) }
{
    valve::print(text, buffer)
}

// Demands 1 and 2 of `fix_octal`.
pub fn fix_octal(text: &[u8], buffer: &mut [u8]) -> Result<usize, Refusal>
    ensures fix_answered { FixAnswered text.now buffer.old (fixed_to result buffer.new) }
    ensures fixes_right { FixesRight text.now buffer.old (fixed_to result buffer.new) }
{
    valve::fix_octal(text, buffer)
}

// Demands 1 and 2 of `pact`.
pub fn pact(
    contract: &[u8],
    table: &[u64],
    names: &[u8],
    buffer: &mut [u8],
) -> Result<usize, Refusal>
    ensures draft_answered { DraftAnswered contract.now table.now names.now buffer.old (drafted_to result buffer.new) }
    ensures drafts_right { DraftsRight contract.now table.now names.now buffer.old (drafted_to result buffer.new) }
{
    valve::pact(contract, table, names, buffer)
}

// Demands 1 and 2 of `compare`.
pub fn compare(text: &[u8], list: &[u8], blocks: &[u8]) -> Result<Agreement, Refusal>
    ensures compare_answered { CompareAnswered text.now list.now blocks.now result }
    ensures compare_right { CompareRight text.now list.now blocks.now result }
{
    valve::compare(text, list, blocks)
}

// Demands 1 and 2 of `count`.
pub fn count(
    text: &[u8],
    list: &[u8],
    entries: &[u8],
    parts: &mut [u64; MOST_PARTS],
) -> Result<Counted, Refusal>
    ensures count_answered { CountAnswered text.now list.now entries.now parts.old (counted_to result parts.new) }
    ensures count_right { CountRight text.now list.now entries.now parts.old (counted_to result parts.new) }
{
    valve::count(text, list, entries, parts)
}

// Demands 1 and 2 of `run_all`.
pub fn run_all(
    list: &[u8],
    blocks: &[u8],
    entries: &[u8],
    answers: &mut [u8],
) -> Result<RanAll, Refusal>
    ensures run_all_answered { RunAllAnswered list.now blocks.now entries.now answers.old (ran_over result answers.new) }
    ensures run_all_right { RunAllRight list.now blocks.now entries.now answers.old (ran_over result answers.new) }
{
    valve::run_all(list, blocks, entries, answers)
}

// Demands 1 and 2 of the numbers of an explanation. What is demanded of its pieces stands in `pieces`.
pub fn explain(text: &[u8], list: &[u8], entry: &[u8]) -> Explanation
    ensures explain_answered { ExplainAnswered text.now list.now entry.now result }
    ensures explain_right { ExplainRight text.now list.now entry.now result }
{
    valve::reason(text, list, entry)
}

// Demands 1 and 2 of `summarize`.
pub fn summarize(text: &[u8], list: &[u8]) -> Result<Summary, Refusal>
    ensures summarize_answered { SummarizeAnswered text.now list.now result }
    ensures summarize_right { SummarizeRight text.now list.now result }
{
    valve::summarize(text, list)
}

// Demands 1 and 2 of `recheck`.
pub fn recheck(text: &[u8], list: &[u8], old: &[u8], earlier: Judgement, new: &[u8]) -> Rechecking
    ensures recheck_answered { RecheckAnswered text.now list.now earlier new.now result }
    ensures recheck_right { RecheckRight text.now list.now old.now earlier new.now result }
{
    valve::recheck(text, list, old, earlier, new)
}

// What a text, a list and an entry come to by way of blocks, and by the text alone: how many instructions were written, what loading the blocks
// answers, what running them answers, and what judging the text answers.
#[derive(Clone, Copy)]
pub struct Carrying {
    pub written: usize,
    pub loaded: Result<usize, Refusal>,
    pub ran: Result<Ended, Refusal>,
    pub judged: Judgement,
}

// Demand 3: a text is translated into the buffer, its blocks are loaded from there and run on an entry, and the text is judged on it.
pub fn carry(text: &[u8], list: &[u8], entry: &[u8], buffer: &mut [u8]) -> Result<Carrying, Refusal>
    ensures { Carries text.now list.now entry.now buffer.old buffer.new result }
{
    let written = valve::translate(text, list, buffer)?;
    let size = Block::SIZE * Block::needed(written);
    let loaded = valve::load(list, &buffer[..size]);
    let ran = valve::run(list, &buffer[..size], entry);
    let judged = valve::judge(text, list, entry);
    Ok(Carrying {
        written,
        loaded,
        ran,
        judged,
    })
}
