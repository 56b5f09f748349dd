// Numbers modulo 2^w, for every w. Of what could be longer than 128 bits, a negation and a row of ones, those bits are
// given: there a w past 128 counts as 128.
ghost use Rattle.std.specs.Prelude.{◌≡◌, ◌+◌, ◌-◌, ◌*◌, ◌%◌, ◌^◌, min, pos, neg_ℤ, ◌==◌, nat_le, nat_lt};
ghost use Rattle.paper.specs.Numbers.{modulo};
ghost use Rattle.number.specs.Values.{bit, value};

use crate::magnitude::Magnitude;

// The lowest w bits of a limb.
fn low(limb: u32, w: u32) -> u32
    ensures { result ≡ limb % 2 ^ w }
{
    if 32 <= w { limb } else { limb % (1 << w) }
}

// Whether the lowest k bits of a limb are zero. The processor counts 32 zeros at most, those of a limb that is zero.
fn clear(limb: u32, k: u32) -> bool
    ensures { result ≡ (limb % 2 ^ k == 0) }
{
    k.min(32) <= limb.trailing_zeros()
}

// What is left of a limb, whether or not it owes one: it is no Option.
#[derive(Clone, Copy)]
struct Borrowed {
    limb: u32,
    owed: bool,
}

// A limb taken from zero, and one more where the limb below owes it.
fn taken(limb: u32, owed: bool) -> Borrowed
    ensures { result.limb + limb + bit owed ≡ 2 ^ 32 * bit result.owed }
{
    if owed {
        return Borrowed {
            limb: u32::MAX.wrapping_sub(limb),
            owed: true,
        };
    }
    Borrowed {
        limb: 0u32.wrapping_sub(limb),
        owed: limb != 0,
    }
}

impl Magnitude {
    // The number that the lowest w bits are.
    pub(crate) fn lowest(self, w: u32) -> Magnitude
        ensures { value result ≡ value self % 2 ^ w }
    {
        Magnitude {
            limbs: [
                low(self.limbs[0], w),
                low(self.limbs[1], w.saturating_sub(32)),
                low(self.limbs[2], w.saturating_sub(64)),
                low(self.limbs[3], w.saturating_sub(96)),
            ],
        }
    }

    // The remainder modulo 2^w of the number taken from zero; a w past 128 counts as 128.
    pub fn minus(self, w: u32) -> Magnitude
        ensures { value result ≡ modulo (neg_ℤ (pos (value self))) (2 ^ min w 128) }
    {
        let a = taken(self.limbs[0], false);
        let b = taken(self.limbs[1], a.owed);
        let c = taken(self.limbs[2], b.owed);
        let d = taken(self.limbs[3], c.owed);
        let all = Magnitude {
            limbs: [a.limb, b.limb, c.limb, d.limb],
        };
        all.lowest(w)
    }

    // The number that is a row of w ones, 2^w - 1; a w past 128 counts as 128.
    pub fn ones(w: u32) -> Magnitude
        ensures { value result ≡ 2 ^ min w 128 - 1 }
    {
        let all = Magnitude {
            limbs: [u32::MAX; 4],
        };
        all.lowest(w)
    }

    // Whether the number is below 2^w.
    pub fn fits(self, w: u32) -> bool
        ensures { result ≡ nat_lt (value self) (2 ^ w) }
    {
        self.lowest(w).equal(self)
    }

    // Whether the lowest k bits of the number are zero. The lowest limb that is not zero decides.
    pub fn low_clear(self, k: u32) -> bool
        ensures { result ≡ (value self % 2 ^ k == 0) }
    {
        match self.limbs {
            [0, 0, 0, fourth] => clear(fourth, k.saturating_sub(96)),
            [0, 0, third, _] => clear(third, k.saturating_sub(64)),
            [0, second, _, _] => clear(second, k.saturating_sub(32)),
            [first, _, _, _] => clear(first, k),
        }
    }

    // Whether the number is at most 2^(w - 1), half of what w bits count. From that half on, it is the half where w bits hold it and all
    // but the highest of them are zero.
    pub(crate) fn at_most_half(self, w: u32) -> bool
        ensures { result ≡ nat_le (value self) (2 ^ (w - 1)) }
    {
        let k = w.saturating_sub(1);
        self.fits(k) || self.fits(k + 1) && self.low_clear(k)
    }
}
