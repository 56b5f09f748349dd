// Refusals 16 and 17: whether blocks are laid out as they must be.
ghost use Rattle.std.specs.Prelude.{◌≡◌, ◌&&◌, ◌+◌, ◌*◌, ◌/◌, ◌%◌, ◌-◌, ◌≤◌, ◌<◌, eqb, length, get_or, take};
ghost use Rattle.paper.specs.Answers.{says};
ghost use Rattle.paper.specs.Numbers.{bytes_at};
ghost use Rattle.paper.specs.Tokens.{same_bytes};
ghost use Rattle.paper.specs.Keys.{all_zero};
ghost use Rattle.paper.specs.Blocks.{most_blocks, count_ok, counts_from, check_of};
ghost use Rattle.blocks.specs.Layout.{laid_out, block_right};

use crate::fields::{Block, two_bytes};
use crate::sums::sums_of;
use paper::{Place, Refusal, refused};
use spelling::bytes;

// 25 except in the last block, where it is 1 to 25.
fn count_right(later: usize, count: usize) -> bool
    ensures { result ≡ count_ok later count }
{
    if later == 0 {
        (1..=Block::INSTRUCTIONS).contains(&count)
    } else {
        count == Block::INSTRUCTIONS
    }
}

fn check_right(block: &[u8]) -> bool
    requires { length block.now ≡ 512 }
    ensures { result ≡ same_bytes (bytes_at block.now 508 4) (check_of (take 508 block.now)) }
{
    let check = sums_of(&block[..Block::CHECK]).bytes();
    block[Block::CHECK..] == check[..]
}

// Whether a block's count is right where so many stand after it, and zeros are all that follows the code.
fn code_right(block: &[u8], later: usize, count: usize) -> bool
    requires { length block.now ≡ 512 }
    ensures { result ≡ (count_ok later count && all_zero (bytes_at block.now (4 + 20 * count) (500 - 20 * count))) }
{
    count_right(later, count)
        && bytes::all_zero(&block[Block::HEAD + Block::INSTRUCTION * count..Block::TAIL])
}

// Block k, after which so many stand, in blocks of a total count for a number of keys.
fn block_right(block: &[u8], k: usize, later: usize, total: usize, keys: usize) -> bool
    requires { length block.now ≡ 512 }
    ensures { result ≡ block_right keys total k later block.now }
{
    let b = Block::read(block);
    b.names(k, total, keys) && code_right(block, later, b.count) && check_right(block)
}

// The counts of n blocks, added up as they stand.
fn total_of(blocks: &[u8], n: usize) -> usize
    requires { (n ≤ most_blocks) × (n * 512 ≤ length blocks.now) }
    ensures { result ≡ counts_from blocks.now 0 n }
{
    let mut sum = 0;
    for k in 0..n {
        sum += two_bytes(blocks, k * Block::SIZE + 2);
    }
    sum
}

// How many instructions the blocks hold for a number of keys, or their refusal, 16 or 17.
pub fn layout(blocks: &[u8], keys: usize) -> Result<usize, Refusal>
    ensures { says result ≡ laid_out keys blocks.now }
{
    let size = blocks.len();
    if size == 0 {
        return Err(Refusal {
            number: refused::BLOCKS_LENGTH,
            place: Place::Blocks(size),
        });
    }
    if size % Block::SIZE != 0 {
        return Err(Refusal {
            number: refused::BLOCKS_LENGTH,
            place: Place::Blocks(size),
        });
    }
    if Block::MOST * Block::SIZE < size {
        return Err(Refusal {
            number: refused::BLOCKS_LENGTH,
            place: Place::Blocks(size),
        });
    }
    let n = size / Block::SIZE;
    let total = total_of(blocks, n);
    for k in 0..n {
        let from = k * Block::SIZE;
        if !block_right(
            &blocks[from..from + Block::SIZE],
            k,
            n - (k + 1),
            total,
            keys,
        ) {
            return Err(Refusal {
                number: refused::BLOCK_LAYOUT,
                place: Place::Blocks(from),
            });
        }
    }
    Ok(total)
}
