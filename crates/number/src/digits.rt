// A number after which one more digit is written.
ghost use Rattle.std.specs.Prelude.{◌≡◌, ◌+◌, ◌*◌, ◌%◌, ◌^◌};
ghost use Rattle.number.specs.Values.{value, Fitted};

use crate::magnitude::Magnitude;

#[derive(Clone, Copy)]
struct Carry {
    limb: u32,
    over: u32,
}

// A limb times the base, plus what came over from the limb below.
fn scaled(limb: u32, base: u32, over: u32) -> Carry
    ensures { result.limb + 2 ^ 32 * result.over ≡ limb * base + over }
{
    let product = limb as u64 * base as u64 + over as u64;
    Carry {
        limb: (product % 0x1_0000_0000) as u32,
        over: (product / 0x1_0000_0000) as u32,
    }
}

impl Magnitude {
    // The lowest 128 bits of the number with one more digit written after it, and what they leave over.
    pub fn grow(self, base: u32, digit: u32) -> (Magnitude, u32)
        ensures { value result.0 + 2 ^ 128 * result.1 ≡ value self * base + digit }
    {
        let a = scaled(self.limbs[0], base, digit);
        let b = scaled(self.limbs[1], base, a.over);
        let c = scaled(self.limbs[2], base, b.over);
        let d = scaled(self.limbs[3], base, c.over);
        let number = Magnitude {
            limbs: [a.limb, b.limb, c.limb, d.limb],
        };
        (number, d.over)
    }

    // The number with one more digit written after it, if it still fits.
    pub fn checked_grow(self, base: u32, digit: u32) -> Option<Magnitude>
        ensures { Fitted (value self * base + digit) result }
    {
        match self.grow(base, digit) {
            (number, 0) => Some(number),
            _ => None,
        }
    }

    // The lowest 128 bits of the number with one more digit written after it.
    pub fn wrapping_grow(self, base: u32, digit: u32) -> Magnitude
        ensures { value result ≡ (value self * base + digit) % 2 ^ 128 }
    {
        self.grow(base, digit).0
    }
}
