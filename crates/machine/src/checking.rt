// The load check: the types are followed, and each skip's landing is held to what its skip leaves.
ghost use Rattle.std.specs.Prelude.{◌≡◌, ◌*◌, ◌^◌, ◌<◌, ◌≤◌, List, length};
ghost use Rattle.paper.specs.Keys.{Key};
ghost use Rattle.paper.specs.Answers.{refused, in_blocks, says};
ghost use Rattle.paper.specs.Blocks.{in_block, most_blocks, blocks_in};
ghost use Rattle.paper.specs.Loading.{instruction_at, instructions_from, types_along, load_check};
ghost use Rattle.keys.specs.Says.{keys_in};
ghost use Rattle.machine.specs.Following.{Followed, Fitted};

use crate::decoding::{over_at, place_of};
use crate::following::{ONE_BOOL, follow};
use blocks::Block;
use paper::{Place, Refusal, refused};

// A mark for each point of code that is short, as most is: these are soon cleared.
const FEW_MARKS: usize = 256;

// And of as much code as blocks can hold.
const ALL_MARKS: usize = Block::MOST * Block::INSTRUCTIONS + 1;

fn refused_at(i: usize) -> Result<(), Refusal>
    requires { instruction_at i < 2 ^ 64 }
    ensures { says result ≡ refused 18 in_blocks (instruction_at i) }
{
    Err(Refusal {
        number: refused::INSTRUCTION,
        place: Place::Blocks(place_of(i)),
    })
}

// The number of the first instruction before `upto` whose landing does not fit, or `upto`. A landing past it is not compared. An instruction
// that passes nothing over lands on the next, and is compared with itself.
fn misfit(blocks: &[u8], n: usize, upto: usize, marks: &[u32]) -> usize
    requires n_bound { n ≤ in_block * blocks_in blocks.now }
    requires upto_le_n { (upto ≤ n) × (upto < length marks.now) }
    ensures { (ks : List Key) → Followed ks blocks.now n marks.now upto → Fitted ks blocks.now n marks.now result }
{
    for i in 0..upto {
        let landing = i + 1 + over_at(blocks, i);
        if landing <= upto && marks[landing] != marks[i + 1] {
            return i;
        }
    }
    upto
}

// The load check, with room for a mark at each point.
fn check_marking(list: &[u8], blocks: &[u8], n: usize, marks: &mut [u32]) -> Result<(), Refusal>
    requires { (n ≤ in_block * blocks_in blocks.now) × (n < length marks.old) }
    ensures { says result ≡ load_check (length blocks.now) (types_along (keys_in list.now) (instructions_from blocks.now 0 n)) }
{
    let upto = follow(list, blocks, n, marks);
    let at = misfit(blocks, n, upto, marks);
    if at < n {
        return refused_at(at);
    }
    if marks[n] == ONE_BOOL {
        return Ok(());
    }
    Err(Refusal {
        number: refused::INSTRUCTION,
        place: Place::Blocks(blocks.len()),
    })
}

// Whether the first n instructions of blocks pass the load check against a key list, or refusal 18.
pub fn check_code(list: &[u8], blocks: &[u8], n: usize) -> Result<(), Refusal>
    requires { (n ≤ in_block * blocks_in blocks.now) × (n ≤ in_block * most_blocks) }
    ensures { says result ≡ load_check (length blocks.now) (types_along (keys_in list.now) (instructions_from blocks.now 0 n)) }
{
    if n < FEW_MARKS {
        let mut few = [0u32; FEW_MARKS];
        return check_marking(list, blocks, n, &mut few);
    }
    let mut marks = [0u32; ALL_MARKS];
    check_marking(list, blocks, n, &mut marks)
}
