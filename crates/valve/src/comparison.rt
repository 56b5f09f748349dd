// Blocks of another translator against a text: the refusals of a check, then those of the blocks, then whether they agree.
ghost use Rattle.std.specs.Prelude.{◌≡◌, List, ℕ, ◌*◌, ◌≤◌};
ghost use Rattle.paper.specs.Blocks.{in_block, blocks_in};
ghost use Rattle.paper.specs.Comparing.{agrees};
ghost use Rattle.paper.specs.Promised.{ComparePromised};
ghost use Rattle.reading.specs.Parted.{PassedParts};
ghost use Rattle.valve.specs.Divided.{fits_parts};

use crate::{loading, passed};
use blocks::Block;
use keys::KeyRecord;
use paper::{Agreement, Refusal};

// The bytes of a node's code; and of the skip and the join of the first part, which the text's own code has not.
const NODE_CODE: usize = 2 * Block::INSTRUCTION;

const FIRST_JOINED: usize = 2 * Block::INSTRUCTION;

const CODE: usize = NODE_CODE * reading::MOST_NODES + FIRST_JOINED;

// Where each part begins, and the end.
const STARTS: usize = parts::MOST_PARTS + 1;

fn agreement(same: bool) -> Agreement
    ensures { agrees result ≡ same }
{
    if same {
        Agreement::Agrees
    } else {
        Agreement::Differs
    }
}

// Whether the first `count` instructions of blocks are the parts in some order.
fn agrees_by(
    list: &[u8],
    blocks: &[u8],
    count: usize,
    nodes: &[u32],
    rows: &[u32],
    n: usize,
) -> bool
    requires count_bound { count ≤ in_block * blocks_in blocks.now }
    requires by_index { (text : List ℕ) × PassedParts text list.now nodes.now rows.now n }
    ensures { (text : List ℕ) → PassedParts text list.now nodes.now rows.now n
        → result ≡ fits_parts text list.now nodes.now rows.now n blocks.now count }
{
    let mut code = [0u8; CODE];
    let mut starts = [0u32; STARTS];
    comparing::write_parts(list, nodes, rows, n, &mut code, &mut starts);
    comparing::agrees(blocks, count, &code, &starts, n)
}

// By the parts of a text that passed: 16; 17; 18; and whether the blocks agree. The function, and the scratch below it, stay out of the frame under
// which the text is read.
#[inline(never)]
fn compare_by(
    list: &[u8],
    blocks: &[u8],
    nodes: &[u32],
    rows: &[u32],
    n: usize,
) -> Result<Agreement, Refusal>
    requires { (text : List ℕ) × PassedParts text list.now nodes.now rows.now n }
    ensures { (text : List ℕ) → PassedParts text list.now nodes.now rows.now n
        → ComparePromised text list.now blocks.now result }
{
    let count = loading::load_for(list, blocks, list.len() / KeyRecord::SIZE)?;
    Ok(agreement(agrees_by(list, blocks, count, nodes, rows, n)))
}

// Whether the blocks are our translation of the text's parts, each used once, in some order, joined from the left.
pub fn compare(text: &[u8], list: &[u8], blocks: &[u8]) -> Result<Agreement, Refusal>
    ensures { ComparePromised text.now list.now blocks.now result }
{
    passed::with_parts(text, list, |nodes, rows, n| {
        compare_by(list, blocks, nodes, rows, n)
    })?
}
