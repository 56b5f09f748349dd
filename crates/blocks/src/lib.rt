// Blocks of 512 bytes: whether some are laid out as they must be, the writing of them, and the check at a block's end.
//
// `layout` answers for any bytes: the count of instructions that the blocks hold, or refusal 16 or 17 at its place. It reads
// nothing past the bytes it is lent. `write_blocks` fills exactly the blocks that the instructions of the bytes it is lent need, and
// leaves every later byte of the buffer.
#![tactic(auto)]

mod fields;
mod laying;
mod sums;
mod writing;

pub use fields::{Block, two_bytes};
pub use laying::layout;
pub use writing::write_blocks;
