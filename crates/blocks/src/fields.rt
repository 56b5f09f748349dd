// The numbers of a block.
ghost use Rattle.std.specs.Prelude.{◌≡◌, ◌+◌, ◌≤◌, ◌<◌, ◌&&◌, eqb, length};
ghost use Rattle.paper.specs.Numbers.{number_at};
ghost use Rattle.paper.specs.Blocks.{blocks_needed};
ghost use Rattle.blocks.specs.Fields.{BlockOf};

// What a block says of itself.
#[derive(Clone, Copy)]
pub struct Block {
    pub number: usize,
    pub count: usize,
    pub total: usize,
    pub keys: usize,
}

// The number that two bytes from an offset on are, big-endian.
pub fn two_bytes(s: &[u8], at: usize) -> usize
    requires { at + 2 ≤ length s.now }
    ensures { (result ≡ number_at s.now at 2) × (result < 65536) }
{
    usize::from(s[at]) * 256 + usize::from(s[at + 1])
}

impl Block {
    pub const SIZE: usize = 512;

    pub const HEAD: usize = 4;

    pub const INSTRUCTION: usize = 20;

    pub const INSTRUCTIONS: usize = 25;

    pub const CODE: usize = 500;

    pub const TAIL: usize = 504;

    pub const KEYS: usize = 506;

    // Where the check stands: first the second sum, then the first one.
    pub const CHECK: usize = 508;

    pub const CHECK_FIRST: usize = 510;

    pub const MOST: usize = 123;

    // Reads what a block says of itself.
    pub(crate) fn read(block: &[u8]) -> Block
        requires { length block.now ≡ 512 }
        ensures { BlockOf block.now result }
    {
        Block {
            number: two_bytes(block, 0),
            count: two_bytes(block, 2),
            total: two_bytes(block, Block::TAIL),
            keys: two_bytes(block, Block::KEYS),
        }
    }

    // Whether a block says this number, total count and number of keys of itself.
    pub(crate) fn names(self, number: usize, total: usize, keys: usize) -> bool
        ensures { result ≡ (eqb self.number number && eqb self.total total && eqb self.keys keys) }
    {
        self.number == number && self.total == total && self.keys == keys
    }

    // How many blocks hold n instructions.
    pub fn needed(n: usize) -> usize
        ensures { result ≡ blocks_needed n }
    {
        n.div_ceil(Block::INSTRUCTIONS)
    }
}
