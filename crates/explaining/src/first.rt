// The first part that is false on an entry.
ghost use Rattle.std.specs.Prelude.{List, ℕ};
ghost use Rattle.operands.specs.Conforming.{Conforming};
ghost use Rattle.reading.specs.Parted.{Parted};
ghost use Rattle.explaining.specs.FirstFalse.{Finds};

use parts::rows as part_rows;

// The index of the first of n parts that is false on an entry that conforms.
pub(crate) fn first_false(
    list: &[u8],
    entry: &[u8],
    nodes: &[u32],
    rows: &[u32],
    n: usize,
) -> Option<usize>
    requires conforming { Conforming list.now entry.now }
    requires by_index { (text : List ℕ) × Parted text list.now nodes.now rows.now n }
    ensures { (text : List ℕ) → Parted text list.now nodes.now rows.now n
        → Finds text list.now entry.now nodes.now rows.now n result }
{
    for k in 0..n {
        let root = part_rows::root_at(rows, k);
        if !judging::holds(list, entry, nodes, root) {
            return Some(k);
        }
    }
    None
}
