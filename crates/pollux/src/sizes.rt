// The size of a file that is written.
ghost use Rattle.std.specs.Prelude.{◌≡◌};
ghost use Rattle.pollux.specs.Sizes.{first_blocks};

use blocks::Block;

// The first blocks of a buffer; all of it for more blocks than there may be.
pub(crate) fn first_blocks(buffer: &[u8], blocks: usize) -> &[u8]
    ensures { result.now ≡ first_blocks blocks buffer.now }
{
    if blocks <= Block::MOST {
        return lines::start(buffer, blocks * Block::SIZE);
    }
    buffer
}
