// The whole entries of a stretch, one after the other.
ghost use Rattle.std.specs.Prelude.{◌≡◌, List, [], ◌∷◌, ℕ, ◌≤◌, length, replicate};
ghost use Rattle.paper.specs.Calls.{over};
ghost use Rattle.paper.specs.Counting.{whole_in, counts_of};
ghost use Rattle.keys.specs.Says.{keys_in};
ghost use Rattle.trees.specs.Standing.{tree_at};
ghost use Rattle.parts.specs.Rows.{part_at, parts_on};
ghost use Rattle.reading.specs.Parted.{PassedParts};
ghost use Rattle.counting.specs.Tallied.{Spare, Tells, Adds};

use crate::misses;
use crate::total::Totals;

// Adds one entry: to the number of each part that is false on it, if it conforms.
fn add_entry(
    list: &[u8],
    entry: &[u8],
    nodes: &[u32],
    rows: &[u32],
    n: usize,
    counts: &mut [u64],
) -> Totals
    requires by_index { (text : List ℕ) × PassedParts text list.now nodes.now rows.now n }
    requires spare { Spare n 1 counts.old }
    ensures { (text : List ℕ) (p : PassedParts text list.now nodes.now rows.now n)
        → Adds (keys_in list.now) (tree_at text nodes.now p.root) n (part_at text nodes.now rows.now) (entry.now ∷ []) counts.old counts.new result }
{
    let Ok(()) = keys::check_entry(list, entry) else {
        return Totals::refusal();
    };
    Totals::verdict(misses::add_false(list, entry, nodes, rows, n, counts))
}

// Sets the first n numbers to 0.
pub fn clear(counts: &mut [u64], n: usize)
    requires { n ≤ length counts.old }
    ensures { counts.new ≡ over (replicate n 0) counts.old }
{
    counts[..n].fill(0);
}

// Adds the whole entries of a stretch to the numbers of n parts that stand. Bytes of a last one that is cut are not looked at.
pub fn tally(
    list: &[u8],
    nodes: &[u32],
    rows: &[u32],
    n: usize,
    entries: &[u8],
    counts: &mut [u64],
) -> Totals
    requires by_index { (text : List ℕ) × PassedParts text list.now nodes.now rows.now n }
    requires spare { Spare n (whole_in (keys_in list.now) entries.now) counts.old }
    ensures { (text : List ℕ) (p : PassedParts text list.now nodes.now rows.now n)
        → Tells (counts_of (keys_in list.now) (tree_at text nodes.now p.root) (parts_on text nodes.now rows.now n) entries.now) counts.old counts.new result }
{
    let size = keys::entry_size(list);
    let whole = entries.len() / size;
    let mut totals = Totals::none();
    for k in 0..whole {
        let entry = keys::entry_at(entries, k, size);
        totals = totals.plus(add_entry(list, entry, nodes, rows, n, counts));
    }
    totals
}
