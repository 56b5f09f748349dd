// Whether the code of some blocks is that of the parts in some order.
ghost use Rattle.std.specs.Prelude.{◌≡◌, List, ℕ, ◌-◌, ◌*◌, ◌≤◌, ◌<◌, length};
ghost use Rattle.paper.specs.Code.{Instruction};
ghost use Rattle.paper.specs.Blocks.{in_block, blocks_in};
ghost use Rattle.paper.specs.Parts.{most_parts};
ghost use Rattle.paper.specs.Comparing.{records_from, fits};
ghost use Rattle.parts.specs.Rows.{each};
ghost use Rattle.comparing.specs.Scratch.{Stand};

use crate::picking::{first_free, is_all, pick};
use crate::scratch::start_at;

// Of the first `total` instructions of blocks, and n parts, whose codes stand in a scratch. All parts but one are taken off the end, each when it
// comes last, and the one that is left must be all that is left.
pub fn agrees(blocks: &[u8], total: usize, code: &[u8], starts: &[u32], n: usize) -> bool
    requires total_bound { (total ≤ in_block * blocks_in blocks.now) × (n < length starts.now) × (1 ≤ n) × (n ≤ most_parts) }
    requires by_index { (cs : (ℕ → List Instruction)) × Stand code.now starts.now n cs }
    ensures { (cs : (ℕ → List Instruction)) → Stand code.now starts.now n cs
        → result ≡ fits (n - 1) (each cs 0 n) (records_from blocks.now 0 total) }
{
    let mut used = [false; parts::MOST_PARTS];
    let mut left = total;
    for _round in 1..n {
        let Some(k) = pick(blocks, left, code, starts, &used, n) else {
            return false;
        };
        used[k] = true;
        left -= start_at(starts, k + 1) - start_at(starts, k);
    }
    let Some(k) = first_free(&used, n) else {
        return false;
    };
    is_all(blocks, left, code, starts, k)
}
