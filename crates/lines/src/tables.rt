// A table of user numbers from bytes, eight to a number, big-endian.
ghost use Rattle.std.specs.Prelude.{◌+◌, ◌*◌, ◌≤◌, ◌≡◌, length, take};
ghost use Rattle.paper.specs.Numbers.{number_at};
ghost use Rattle.lines.specs.Tables.{kept_of, numbers_from};

// The bytes of a number.
pub const NUMBER: usize = 8;

// How many numbers are kept of a table: as many as it may have and one more, for which it is refused as for any number of them.
pub const KEPT: usize = 17;

// How many are kept of so many.
pub fn kept(count: usize) -> usize
    ensures { (result ≡ kept_of count) × (result ≤ count) × (result ≤ 17) }
{
    count.min(KEPT)
}

// The number that eight bytes from an offset on are.
fn number_at(s: &[u8], at: usize) -> u64
    requires { at + 8 ≤ length s.now }
    ensures { result ≡ number_at s.now at 8 }
{
    let high = u64::from(number::word(s, at));
    let low = u64::from(number::word(s, at + 4));
    high * 0x1_0000_0000 + low
}

// The n numbers from an offset on, and zeros.
pub fn numbers(s: &[u8], at: usize, n: usize) -> [u64; 17]
    requires { (n ≤ 17) × (at + 8 * n ≤ length s.now) }
    ensures { take n result ≡ numbers_from s.now at n }
{
    let mut table = [0u64; KEPT];
    for i in 0..n {
        table[i] = number_at(s, at + NUMBER * i);
    }
    table
}
