// How far the count of a file has come.
ghost use Rattle.std.specs.Prelude.{◌≡◌, List, ◌++◌, ℕ, ◌+◌, ◌≤◌};
ghost use Rattle.paper.specs.Counting.{whole_in, cut_in, most_entries};
ghost use Rattle.keys.specs.Says.{keys_in};
ghost use Rattle.reading.specs.Parted.{PassedParts};
ghost use Rattle.report.specs.Reached.{rule_of, Reaches, Begun};

use counting::Totals;

// What entries are counted by: a key list, and the n parts of a text that passed with it, by rows and the nodes of the text's tree.
#[derive(Clone, Copy)]
pub struct Parted<'a> {
    pub list: &'a [u8],
    pub nodes: &'a [u32],
    pub rows: &'a [u32],
    pub n: usize,
}

// The whole entries so far, what they were judged, and the bytes after the last of them.
#[derive(Clone, Copy)]
pub struct Course {
    pub whole: usize,
    pub totals: Totals,
    pub cut: usize,
}

impl Course {
    // Of no byte.
    pub(crate) fn none() -> Course
        ensures { (result.whole ≡ 0) × (result.cut ≡ 0) × (result.totals.accepted ≡ 0) × (result.totals.violated ≡ 0) × (result.totals.refused ≡ 0) }
    {
        Course {
            whole: 0,
            totals: Totals::none(),
            cut: 0,
        }
    }
}

// Counts the bytes that are held behind those before, which were whole entries.
pub(crate) fn add_held(parted: Parted, held: &[u8], counts: &mut [u64], before: Course) -> Course
    requires begun { Begun parted.list.now parted.nodes.now parted.rows.now parted.n before counts.old }
    requires held_bound { before.whole + whole_in (keys_in parted.list.now) held.now ≤ most_entries }
    ensures whole_value { (result.whole ≡ before.whole + whole_in (keys_in parted.entry.list.now) held.now) × (result.cut ≡ cut_in (keys_in parted.entry.list.now) held.now) }
    ensures by_index { (text : List ℕ) (p : PassedParts text parted.entry.list.now parted.entry.nodes.now parted.entry.rows.now parted.entry.n) (base s : List ℕ)
        → cut_in (keys_in parted.entry.list.now) s ≡ 0
        → Reaches (rule_of text parted.entry.list.now parted.entry.nodes.now parted.entry.rows.now parted.entry.n p) base s before counts.old
        → Reaches (rule_of text parted.entry.list.now parted.entry.nodes.now parted.entry.rows.now parted.entry.n p) base (s ++ held.now) result counts.new }
{
    let Parted {
        list,
        nodes,
        rows,
        n,
    } = parted;
    let size = keys::entry_size(list);
    let totals = counting::tally(list, nodes, rows, n, held, counts);
    Course {
        whole: before.whole + held.len() / size,
        totals: before.totals.plus(totals),
        cut: held.len() % size,
    }
}
