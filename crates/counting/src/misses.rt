// The parts that are false on an entry.
ghost use Rattle.std.specs.Prelude.{◌≡◌, not, List, ℕ};
ghost use Rattle.paper.specs.CountedRight.{one};
ghost use Rattle.operands.specs.Conforming.{Conforming};
ghost use Rattle.judging.specs.Holding.{tree_holds};
ghost use Rattle.parts.specs.Rows.{root_at};
ghost use Rattle.reading.specs.Parted.{Parted};
ghost use Rattle.counting.specs.Tallied.{Spare, Grew, all_below};

use parts::rows as part_rows;

// Adds one to the number of each of n parts that is false on an entry that conforms. Whether none is.
pub(crate) fn add_false(
    list: &[u8],
    entry: &[u8],
    nodes: &[u32],
    rows: &[u32],
    n: usize,
    counts: &mut [u64],
) -> bool
    requires conforming { Conforming list.now entry.now }
    requires by_index { (text : List ℕ) × Parted text list.now nodes.now rows.now n }
    requires spare { Spare n 1 counts.old }
    ensures { (text : List ℕ) → Parted text list.now nodes.now rows.now n
        → (Grew n (λ k. one (not (tree_holds text list.now entry.now nodes.now (root_at rows.now k)))) counts.old counts.new
        × (result ≡ all_below (λ k. tree_holds text list.now entry.now nodes.now (root_at rows.now k)) n)) }
{
    let mut all = true;
    for k in 0..n {
        let root = part_rows::root_at(rows, k);
        if !judging::holds(list, entry, nodes, root) {
            counts[k] += 1;
            all = false;
        }
    }
    all
}
