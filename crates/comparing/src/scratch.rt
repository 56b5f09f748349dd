// The codes of the parts of a text in a scratch, each as it is joined, one after the other; and beside it the number of each part's first instruction.
ghost use Rattle.std.specs.Prelude.{◌≡◌, List, ℕ, ◌+◌, ◌*◌, ◌^◌, ◌≤◌, ◌<◌, length};
ghost use Rattle.reading.specs.Parted.{Parted};
ghost use Rattle.comparing.specs.Scratch.{start_at, Stand, code_at, Roomy};

use parts::rows as part_rows;

// The number of the first instruction of part k; of the last part's number plus one, that after all.
pub(crate) fn start_at(starts: &[u32], k: usize) -> usize
    requires { k < length starts.now }
    ensures { result ≡ start_at starts.now k }
{
    starts[k] as usize
}

// Writes the codes of n parts.
pub fn write_parts(
    list: &[u8],
    nodes: &[u32],
    rows: &[u32],
    n: usize,
    code: &mut [u8],
    starts: &mut [u32],
)
    requires n_in_bounds { (n < length starts.old) × (length code.old < 2 ^ 32) }
    requires by_index { (text : List ℕ) × (Parted text list.now nodes.now rows.now n × Roomy text list.now nodes.now rows.now n code.old) }
    ensures { (text : List ℕ) → Parted text list.now nodes.now rows.now n
        → Roomy text list.now nodes.now rows.now n code.old
        → Stand code.new starts.new n (code_at text list.now nodes.now rows.now) }
{
    let mut at = 0;
    starts[0] = 0;
    for k in 0..n {
        let root = part_rows::root_at(rows, k);
        at = translating::write_joined(list, nodes, root, at, code);
        starts[k + 1] = at as u32;
    }
}
