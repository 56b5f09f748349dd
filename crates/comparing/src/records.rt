// Records of 20 bytes, an instruction each: in blocks as they stand, and in a scratch one after the other.
ghost use Rattle.std.specs.Prelude.{◌≡◌, ◌+◌, ◌*◌, ◌≤◌, length};
ghost use Rattle.paper.specs.Numbers.{bytes_at};
ghost use Rattle.paper.specs.Tokens.{same_bytes};
ghost use Rattle.paper.specs.Code.{instruction_size};
ghost use Rattle.paper.specs.Blocks.{in_block, blocks_in};
ghost use Rattle.paper.specs.Loading.{instruction_at};
ghost use Rattle.paper.specs.Comparing.{records_from, same_records};
ghost use Rattle.comparing.specs.Scratch.{code_from};

use blocks::Block;
use spelling::bytes;

// The record from an offset on.
fn record_from(s: &[u8], at: usize) -> &[u8]
    requires { at + instruction_size ≤ length s.now }
    ensures { result.now ≡ bytes_at s.now at instruction_size }
{
    &s[at..at + Block::INSTRUCTION]
}

// Whether instruction i of blocks has the bytes of instruction j of a scratch.
fn same_record(blocks: &[u8], i: usize, code: &[u8], j: usize) -> bool
    requires { (instruction_at i + instruction_size ≤ length blocks.now) × (instruction_size * (j + 1) ≤ length code.now) }
    ensures { result ≡ same_bytes (bytes_at blocks.now (instruction_at i) instruction_size) (bytes_at code.now (instruction_size * j) instruction_size) }
{
    let theirs = machine::place_of(i);
    let ours = Block::INSTRUCTION * j;
    bytes::same_bytes(record_from(blocks, theirs), record_from(code, ours))
}

// The same of n instructions, from i and from j on. It stays out of its callers: the loop that
// looks for a part that is free needs the registers.
#[inline(never)]
pub(crate) fn same_records(blocks: &[u8], i: usize, code: &[u8], j: usize, n: usize) -> bool
    requires { (i + n ≤ in_block * blocks_in blocks.now) × (instruction_size * (j + n) ≤ length code.now) }
    ensures { result ≡ same_records (records_from blocks.now i n) (code_from code.now j n) }
{
    for k in 0..n {
        if !same_record(blocks, i + k, code, j + k) {
            return false;
        }
    }
    true
}
