// Which part comes last in the code of some blocks.
ghost use Rattle.std.specs.Prelude.{◌≡◌, List, ℕ, ◌+◌, ◌*◌, ◌≤◌, ◌<◌, length};
ghost use Rattle.paper.specs.Code.{Instruction};
ghost use Rattle.paper.specs.Blocks.{in_block, blocks_in};
ghost use Rattle.paper.specs.Comparing.{records_from, written, same_records};
ghost use Rattle.comparing.specs.Scratch.{Stood, Stand};
ghost use Rattle.comparing.specs.Picking.{first_from, IsFirst, is_free, last_free, comes_last};

use crate::records::same_records;
use crate::scratch::start_at;

// Whether part k, if it is not yet used, comes last in the first `left` instructions, as it is joined.
fn comes_last(
    blocks: &[u8],
    left: usize,
    code: &[u8],
    starts: &[u32],
    used: &[bool],
    k: usize,
) -> bool
    requires left_bound { (left ≤ in_block * blocks_in blocks.now) × (k + 1 < length starts.now) × (k < length used.now) }
    requires stood { (c : List Instruction) × Stood code.now starts.now k c }
    ensures { (c : List Instruction) → Stood code.now starts.now k c
        → result ≡ last_free used.now k c (records_from blocks.now 0 left) }
{
    if used[k] {
        return false;
    }
    let from = start_at(starts, k);
    let size = start_at(starts, k + 1) - from;
    if left < size {
        return false;
    }
    same_records(blocks, left - size, code, from, size)
}

// The first of n parts that does.
pub(crate) fn pick(
    blocks: &[u8],
    left: usize,
    code: &[u8],
    starts: &[u32],
    used: &[bool],
    n: usize,
) -> Option<usize>
    requires left_bound { (left ≤ in_block * blocks_in blocks.now) × (n < length starts.now) × (n ≤ length used.now) }
    requires by_index { (cs : (ℕ → List Instruction)) × Stand code.now starts.now n cs }
    ensures { (cs : (ℕ → List Instruction)) → Stand code.now starts.now n cs
        → IsFirst n (first_from (comes_last used.now cs (records_from blocks.now 0 left)) 0 n) result }
{
    for k in 0..n {
        if comes_last(blocks, left, code, starts, used, k) {
            return Some(k);
        }
    }
    None
}

// The first of n parts that is not yet used.
pub(crate) fn first_free(used: &[bool], n: usize) -> Option<usize>
    requires { n ≤ length used.now }
    ensures { IsFirst n (first_from (is_free used.now) 0 n) result }
{
    for k in 0..n {
        if !used[k] {
            return Some(k);
        }
    }
    None
}

// Whether the first `left` instructions are part k alone: its code without the skip before it and the join after it.
pub(crate) fn is_all(blocks: &[u8], left: usize, code: &[u8], starts: &[u32], k: usize) -> bool
    requires left_bound { (left ≤ in_block * blocks_in blocks.now) × (k + 1 < length starts.now) }
    requires stood { (c : List Instruction) × Stood code.now starts.now k c }
    ensures { (c : List Instruction) → Stood code.now starts.now k c
        → result ≡ same_records (written c) (records_from blocks.now 0 left) }
{
    let from = start_at(starts, k) + 1;
    let to = start_at(starts, k + 1) - 1;
    if left != to - from {
        return false;
    }
    same_records(blocks, 0, code, from, left)
}
