// The digits of a number, in any base from 2 to 16.
ghost use Rattle.std.specs.Prelude.{◌≡◌, ◌+◌, ◌*◌, ◌/◌, ◌%◌, ◌^◌, ◌<◌, ◌≤◌, true, false, length};
ghost use Rattle.paper.specs.Print.{digit_byte, numeral_in};
ghost use Rattle.number.specs.Values.{limb, value};
ghost use Rattle.number.specs.Numerals.{Divides, Holds, Lies, Ends, Begins, most_limb_digits};

use crate::magnitude::Magnitude;

// How many digits a limb has at most: as many as bits, in base 2.
pub const MOST_LIMB_DIGITS: usize = 32;

// A number without its last digits, and those digits.
#[derive(Clone, Copy)]
struct Divided {
    number: Magnitude,
    rest: u32,
}

// The bytes of a numeral, from `first` on: no String, since the switch has no heap.
#[derive(Clone, Copy)]
pub struct Digits {
    pub bytes: [u8; 128],
    pub first: usize,
}

#[derive(Clone, Copy)]
struct Split {
    limb: u32,
    rest: u32,
}

// How many digits are cut off a number of several limbs at a time. A division goes through all limbs, so there are to be few of them; and in
// every base so many digits fit a limb.
const CUT: usize = 7;

// The base of most numerals, and what its numbers are cut by. To divide by a number that the compiler knows is many times faster than by any
// other: so where the base is ten, each of the three functions that divide is called with it by name, and compiled once more for it.
const TEN: u32 = 10;

const TEN_MILLION: u32 = 10_000_000;

// A limb divided, after what the limbs above it left over.
fn divide_limb(limb: u32, over: u32, by: u32) -> Split
    requires { over < by }
    ensures { (result.limb * by + result.rest ≡ over * 2 ^ 32 + limb) × (result.rest < by) }
{
    let both = over as u64 * 0x1_0000_0000 + limb as u64;
    // A division is slow, and of a number's upper limbs there is mostly nothing to divide.
    if both < by as u64 {
        return Split {
            limb: 0,
            rest: both as u32,
        };
    }
    Split {
        limb: (both / by as u64) as u32,
        rest: (both % by as u64) as u32,
    }
}

// The byte of a digit, a letter in lower case from ten on.
fn digit_byte(digit: u32) -> u8
    requires { digit < 16 }
    ensures { result ≡ digit_byte digit }
{
    let byte = if digit < 10 { 48 + digit } else { 87 + digit };
    byte as u8
}

// What numbers of a base are cut by: its seventh power.
fn cut_by(base: u32) -> u32
    requires { base ≤ 16 }
    ensures { result ≡ base ^ 7 }
{
    let cube = base * base * base;
    cube * cube * base
}

// Writes the last seven digits of a longer number before an offset, zeros too.
fn put_cut(n: u32, base: u32, end: usize, bytes: &mut [u8])
    requires le_base { (2 ≤ base) × (base ≤ 16) × (n < base ^ 7) }
    requires le_end { (7 ≤ end) × (end ≤ length bytes.old) }
    ensures { Ends base 7 n end bytes.old bytes.new }
{
    let mut left = n;
    for i in (end - CUT..end).rev() {
        bytes[i] = digit_byte(left % base);
        left /= base;
    }
}

// Writes the digits of a limb before an offset, as many as there is room for, and tells where they begin.
fn put_limb(n: u32, base: u32, end: usize, bytes: &mut [u8]) -> usize
    requires le_base { (2 ≤ base) × (base ≤ 16) }
    requires end_in_bounds { end ≤ length bytes.old }
    ensures { Begins base n end bytes.old bytes.new result }
{
    let mut left = n;
    for i in (0..end).rev() {
        bytes[i] = digit_byte(left % base);
        if left < base {
            return i;
        }
        left /= base;
    }
    0
}

// Writes the last seven digits of a longer number before an offset, zeros too.
fn put_seven(n: u32, base: u32, end: usize, bytes: &mut [u8])
    requires le_base { (2 ≤ base) × (base ≤ 16) × (n < base ^ 7) }
    requires le_end { (7 ≤ end) × (end ≤ length bytes.old) }
    ensures { Ends base 7 n end bytes.old bytes.new }
{
    if base == TEN {
        return put_cut(n, TEN, end, bytes);
    }
    put_cut(n, base, end, bytes)
}

// Writes the digits of a limb before an offset, as many as there is room for, and tells where they begin.
fn put_first(n: u32, base: u32, end: usize, bytes: &mut [u8]) -> usize
    requires le_base { (2 ≤ base) × (base ≤ 16) }
    requires end_in_bounds { end ≤ length bytes.old }
    ensures { Begins base n end bytes.old bytes.new result }
{
    if base == TEN {
        return put_limb(n, TEN, end, bytes);
    }
    put_limb(n, base, end, bytes)
}

// Writes the numeral of a limb at the end of bytes that have room for it in every base, and tells where it begins.
pub fn put_limb_digits(n: u32, base: u32, bytes: &mut [u8]) -> usize
    requires le_base { (2 ≤ base) × (base ≤ 16) }
    requires bytes_len { length bytes.old ≡ most_limb_digits }
    ensures { Lies (numeral_in base n) bytes.new result }
{
    put_first(n, base, MOST_LIMB_DIGITS, bytes)
}

impl Magnitude {
    // Whether the number has another limb than the lowest.
    pub fn is_long(self) -> bool
        ensures { (result ≡ false → value self ≡ limb self 0) × (result ≡ true → 2 ^ 32 ≤ value self) }
    {
        !matches!(self.limbs, [_, 0, 0, 0])
    }

    // The number divided, limb by limb from the highest, and what is left over.
    fn divide(self, by: u32) -> Divided
        requires { 0 < by }
        ensures { Divides (value self) by result }
    {
        let d = divide_limb(self.limbs[3], 0, by);
        let c = divide_limb(self.limbs[2], d.rest, by);
        let b = divide_limb(self.limbs[1], c.rest, by);
        let a = divide_limb(self.limbs[0], b.rest, by);
        Divided {
            number: Magnitude {
                limbs: [a.limb, b.limb, c.limb, d.limb],
            },
            rest: a.rest,
        }
    }

    // The number without its last seven digits in a base, and those digits.
    fn cut(self, base: u32) -> Divided
        requires { (2 ≤ base) × (base ≤ 16) }
        ensures { Divides (value self) (base ^ 7) result }
    {
        if base == TEN {
            return self.divide(TEN_MILLION);
        }
        self.divide(cut_by(base))
    }

    // The numeral of the number in a base. It is written from its last digit on, before those that stand, so the digits that may still
    // be written are as many as the bytes before them. Most numbers have one limb, and nothing is cut off them.
    pub fn digits_in(self, base: u32) -> Digits
        requires { (2 ≤ base) × (base ≤ 16) }
        ensures { Holds (numeral_in base (value self)) result }
    {
        let mut bytes = [0u8; 128];
        let mut end = 128;
        let mut left = self;
        // A loop, and no iterator: what is left of the number tells whether there is another turn.
        while left.is_long() {
            let d = left.cut(base);
            put_seven(d.rest, base, end, &mut bytes);
            end -= CUT;
            left = d.number;
        }
        let first = put_first(left.limbs[0], base, end, &mut bytes);
        Digits { bytes, first }
    }
}
