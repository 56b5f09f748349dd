// Whole numbers: a size and a sign. Zero may carry either sign, and is the same number.
ghost use Rattle.std.specs.Prelude.{◌≡◌, ◌^◌, min, pos, neg_ℤ};
ghost use Rattle.paper.specs.Numbers.{modulo, same_whole, less_whole};
ghost use Rattle.paper.specs.Types.{fits_in};
ghost use Rattle.number.specs.Values.{value, whole_of};

use crate::magnitude::Magnitude;

#[derive(Clone, Copy)]
pub struct Whole {
    pub negative: bool,
    pub size: Magnitude,
}

impl Whole {
    // The whole number of this size that is not negative.
    pub fn of(size: Magnitude) -> Whole
        ensures { whole_of result ≡ pos (value size) }
    {
        Whole {
            negative: false,
            size,
        }
    }

    // The whole number of the same size and the other sign.
    pub fn negated(self) -> Whole
        ensures { whole_of result ≡ neg_ℤ (whole_of self) }
    {
        Whole {
            negative: !self.negative,
            ..self
        }
    }

    // Whether the whole number is negative and not zero.
    fn below_zero(self) -> bool
        ensures { result ≡ less_whole (whole_of self) (pos 0) }
    {
        self.negative && !self.size.is_zero()
    }

    // Whether the two whole numbers are equal. It is not derived, since zero may carry either sign.
    pub fn equal(self, other: Whole) -> bool
        ensures { result ≡ same_whole (whole_of self) (whole_of other) }
    {
        self.below_zero() == other.below_zero() && self.size.equal(other.size)
    }

    // Whether this whole number is below the other.
    pub fn less(self, other: Whole) -> bool
        ensures { result ≡ less_whole (whole_of self) (whole_of other) }
    {
        match (self.below_zero(), other.below_zero()) {
            (false, false) => self.size.less(other.size),
            (true, true) => other.size.less(self.size),
            (below, _) => below,
        }
    }

    // The remainder modulo 2^w that is not negative; a w past 128 counts as 128.
    pub fn reduced(self, w: u32) -> Magnitude
        ensures { value result ≡ modulo (whole_of self) (2 ^ min w 128) }
    {
        if self.negative {
            self.size.minus(w)
        } else {
            self.size.lowest(w)
        }
    }

    // Whether the whole number lies between -2^(w - 1) and 2^w - 1, so that w bits hold it with none lost.
    pub fn fits_in(self, w: u32) -> bool
        ensures { result ≡ fits_in w (whole_of self) }
    {
        if self.negative {
            self.size.at_most_half(w)
        } else {
            self.size.fits(w)
        }
    }
}
