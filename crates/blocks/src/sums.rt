// The check: two sums over the big-endian 16-bit words before it, both modulo 65,535.
ghost use Rattle.std.specs.Prelude.{◌≡◌, ◌*◌, ◌+◌, ◌/◌, ◌^◌, ◌≤◌, ◌<◌, length, take};
ghost use Rattle.paper.specs.Blocks.{sums_of, sealed};
ghost use Rattle.blocks.specs.Sealed.{sums_meant, check_spelled, TurnedWord, Added};

use crate::fields::Block;

#[derive(Clone, Copy)]
pub struct Sums {
    pub first: u32,
    pub second: u32,
}

const NONE: Sums = Sums {
    first: 0,
    second: 0,
};

impl Sums {
    // The sums with one word more.
    fn with(self, word: u32) -> Sums
        requires { self.second + (self.first + word) < 2 ^ 32 }
        ensures { (result.first ≡ self.first + word) × (result.second ≡ self.second + (self.first + word)) }
    {
        let first = self.first + word;
        Sums {
            first,
            second: self.second + first,
        }
    }

    // The check's bytes: the second sum, then the first, the high byte of each before the low one.
    pub(crate) fn bytes(self) -> [u8; 4]
        ensures { result ≡ check_spelled self }
    {
        let Sums { first, second } = self;
        [
            (second / 256 % 256) as u8,
            (second % 256) as u8,
            (first / 256 % 256) as u8,
            (first % 256) as u8,
        ]
    }
}

// The word at an offset with its bytes the other way round, as the processor loads it. Modulo 65,535 the word is 256 times that, and so
// are the check's sums 256 times the sums of these.
fn turned_word(s: &[u8], at: usize) -> u32
    requires { at + 2 ≤ length s.now }
    ensures { TurnedWord s.now at result }
{
    u32::from(s[at]) + u32::from(s[at + 1]) * 256
}

// The sums of the words of all whole fours. Each of the four words has a pair of sums of its own, so that the compiler adds four words at
// a time. The second of all sums has a word four times as often as the second of its pair, less 0 to 3 by its place in its four.
fn sums_of_fours(s: &[u8]) -> Sums
    requires { length s.now ≤ 508 }
    ensures { Added s.now (length s.now / 8 * 8) result.first result.second }
{
    let mut a = NONE;
    let mut b = NONE;
    let mut c = NONE;
    let mut d = NONE;
    for four in s.chunks_exact(8) {
        a = a.with(turned_word(four, 0));
        b = b.with(turned_word(four, 2));
        c = c.with(turned_word(four, 4));
        d = d.with(turned_word(four, 6));
    }
    Sums {
        first: a.first + b.first + c.first + d.first,
        second: 4 * (a.second + b.second + c.second + d.second)
            - (b.first + 2 * c.first + 3 * d.first),
    }
}

// They are reduced once, at the end: unreduced sums of 508 bytes stay below 2^32. It stays out of
// its callers: put into the one that writes blocks, the words were added one by one (`translate`
// at `acl`, docs/DESIGN-PASS.md).
#[inline(never)]
pub(crate) fn sums_of(s: &[u8]) -> Sums
    requires { length s.now ≤ 508 }
    ensures { (sums_meant result ≡ sums_of s.now) × (result.first < 65535) × (result.second < 65535) }
{
    let mut sums = sums_of_fours(s);
    for pair in s[s.len() / 8 * 8..].chunks_exact(2) {
        sums = sums.with(turned_word(pair, 0));
    }
    Sums {
        first: sums.first % 65535 * 256 % 65535,
        second: sums.second % 65535 * 256 % 65535,
    }
}

// Stores the check of a block's first 508 bytes after them.
pub(crate) fn seal(block: &mut [u8])
    requires { length block.old ≡ 512 }
    ensures { block.new ≡ sealed (take 508 block.old) }
{
    let check = sums_of(&block[..Block::CHECK]).bytes();
    block[Block::CHECK..].copy_from_slice(&check);
}
