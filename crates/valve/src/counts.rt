// Entries laid end to end, counted against a text: the refusals of a check, then that of too many entries, then the numbers.
ghost use Rattle.std.specs.Prelude.{List, ℕ};
ghost use Rattle.paper.specs.Promised.{CountPromised};
ghost use Rattle.reading.specs.Grown.{RowRoom};
ghost use Rattle.reading.specs.Parted.{PassedParts};

use paper::{Counted, Place, Refusal, refused};
use tokens::Stop;

// The most entries that are counted.
const MOST_ENTRIES: usize = 1_000_000;

// By the parts of a text that passed: 25; and the numbers of n parts, from 0 on.
fn count_by(
    list: &[u8],
    entries: &[u8],
    nodes: &[u32],
    rows: &[u32],
    n: usize,
    parts: &mut [u64; parts::MOST_PARTS],
) -> Result<Counted, Refusal>
    requires { (text : List ℕ) × PassedParts text list.now nodes.now rows.now n }
    ensures { (text : List ℕ) → PassedParts text list.now nodes.now rows.now n
        → CountPromised text list.now entries.now parts.old (record { answer = result; numbers = parts.new }) }
{
    let size = keys::entry_size(list);
    if MOST_ENTRIES < entries.len() / size {
        return Err(Refusal {
            number: refused::ENTRIES_MANY,
            place: Place::Entry(MOST_ENTRIES * size),
        });
    }
    counting::clear(parts, n);
    let totals = counting::tally(list, nodes, rows, n, entries, parts);
    Ok(Counted {
        parts: n,
        accepted: totals.accepted,
        violated: totals.violated,
        refused: totals.refused,
        cut: entries.len() % size,
    })
}

// With nodes for any text. The rows are lent, so that there is one set of them. No closure for `passed::with_parts`, as in writing.rt: it fills `parts`.
fn count_long(
    text: &[u8],
    list: &[u8],
    entries: &[u8],
    rows: &mut [u32],
    parts: &mut [u64; parts::MOST_PARTS],
) -> Result<Counted, Refusal>
    requires { RowRoom rows.old }
    ensures { CountPromised text.now list.now entries.now parts.old (record { answer = result; numbers = parts.new }) }
{
    let mut nodes = [0u32; reading::NODE_WORDS];
    let n = reading::restrict_parts(text, list, &mut nodes, rows)?;
    count_by(list, entries, &nodes, rows, n, parts)
}

// How many of the entries are accepted, violated and refused, and the bytes of a last one that is cut. For each part of the text the number of
// conforming entries on which it is false stands in `parts`, from the first on. Every later number stays, and all of them on a refusal.
pub fn count(
    text: &[u8],
    list: &[u8],
    entries: &[u8],
    parts: &mut [u64; parts::MOST_PARTS],
) -> Result<Counted, Refusal>
    ensures { CountPromised text.now list.now entries.now parts.old (record { answer = result; numbers = parts.new }) }
{
    let mut nodes = [0u32; reading::SHORT_NODE_WORDS];
    let mut rows = [0u32; reading::PART_WORDS];
    match reading::try_parts(text, list, &mut nodes, &mut rows) {
        Ok(n) => count_by(list, entries, &nodes, &rows, n, parts),
        Err(Stop::Refused(refusal)) => Err(refusal),
        Err(Stop::Over) => count_long(text, list, entries, &mut rows, parts),
    }
}
