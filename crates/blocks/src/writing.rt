// Writing blocks: the bytes of instructions, 25 to a block, with the block's numbers and its check.
ghost use Rattle.std.specs.Prelude.{◌≡◌, ◌+◌, ◌*◌, ◌/◌, ◌≤◌, length};
ghost use Rattle.std.proofs.lemmas.List.Edits.{sets};
ghost use Rattle.paper.specs.Numbers.{big_endian, bytes_at};
ghost use Rattle.paper.specs.Blocks.{blocks_needed};
ghost use Rattle.paper.specs.Calls.{over};
ghost use Rattle.blocks.specs.Written.{padded, coded_block, block_at, coded_blocks};

use crate::fields::Block;
use crate::sums::seal;
use spelling::bytes;

fn put_two_bytes(out: &mut [u8], at: usize, n: usize)
    requires { at + 2 ≤ length out.old }
    ensures { out.new ≡ sets out.old at (big_endian 2 n) }
{
    out[at] = (n / 256 % 256) as u8;
    out[at + 1] = (n % 256) as u8;
}

// The instructions, then zeros.
fn put_code(code: &[u8], block: &mut [u8])
    requires { (length block.old ≡ 512) × (length code.now ≤ 500) }
    ensures { block.new ≡ sets block.old 4 (padded code.now) }
{
    bytes::copy(code, Block::HEAD, block);
    block[Block::HEAD + code.len()..Block::TAIL].fill(0);
}

// Block k of a total count of instructions for a number of keys: all its 512 bytes.
fn write_block(code: &[u8], k: usize, total: usize, keys: usize, block: &mut [u8])
    requires { (length block.old ≡ 512) × (length code.now ≤ 500) }
    ensures { block.new ≡ coded_block total keys k code.now }
{
    put_two_bytes(block, 0, k);
    put_two_bytes(block, 2, code.len() / Block::INSTRUCTION);
    put_code(code, block);
    put_two_bytes(block, Block::TAIL, total);
    put_two_bytes(block, Block::KEYS, keys);
    seal(block);
}

// The bytes of the instructions that block k holds.
fn code_of(code: &[u8], k: usize) -> &[u8]
    requires { k * 500 ≤ length code.now }
    ensures { result.now ≡ bytes_at code.now (k * 500) 500 }
{
    let from = k * Block::CODE;
    &code[from..code.len().min(from + Block::CODE)]
}

// Block k, at its place among the blocks.
fn put_block(code: &[u8], k: usize, total: usize, keys: usize, buffer: &mut [u8])
    requires { (k * 500 ≤ length code.now) × (k * 512 + 512 ≤ length buffer.old) }
    ensures { buffer.new ≡ sets buffer.old (k * 512) (block_at total keys code.now k) }
{
    let at = k * Block::SIZE;
    write_block(
        code_of(code, k),
        k,
        total,
        keys,
        &mut buffer[at..at + Block::SIZE],
    );
}

// Writes the blocks of the instructions whose bytes are lent into the buffer's first bytes; every later byte stays.
pub fn write_blocks(code: &[u8], keys: usize, buffer: &mut [u8])
    requires { 512 * blocks_needed (length code.now / 20) ≤ length buffer.old }
    ensures { buffer.new ≡ over (coded_blocks keys code.now) buffer.old }
{
    let total = code.len() / Block::INSTRUCTION;
    let n = Block::needed(total);
    for k in 0..n {
        put_block(code, k, total, keys, buffer);
    }
}
