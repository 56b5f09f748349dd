// Order, from the highest limb down, and equality.
ghost use Rattle.std.specs.Prelude.{◌≡◌, ◌==◌, nat_lt};
ghost use Rattle.number.specs.Values.{value};

use crate::magnitude::Magnitude;

impl Magnitude {
    // Whether this number is below the other. It is no Ord, whose laws would have to hold of limbs that are no number's.
    pub fn less(self, other: Magnitude) -> bool
        ensures { result ≡ nat_lt (value self) (value other) }
    {
        let [a0, a1, a2, a3] = self.limbs;
        let [b0, b1, b2, b3] = other.limbs;
        (a3, a2, a1, a0) < (b3, b2, b1, b0)
    }

    // Whether the two numbers are equal.
    pub fn equal(self, other: Magnitude) -> bool
        ensures { result ≡ (value self == value other) }
    {
        self == other
    }

    // Whether the number is zero.
    pub fn is_zero(self) -> bool
        ensures { result ≡ (value self == 0) }
    {
        self.equal(Magnitude::zero())
    }
}
