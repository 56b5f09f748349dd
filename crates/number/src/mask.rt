// Bits under a mask.
ghost use Rattle.std.specs.Prelude.{◌≡◌, ◌==◌, bit_and};
ghost use Rattle.number.specs.Values.{value};

use crate::magnitude::Magnitude;

impl Magnitude {
    // Whether the number has no bit outside the mask.
    pub fn inside(self, mask: Magnitude) -> bool
        ensures { result ≡ (bit_and (value self) (value mask) == value self) }
    {
        let kept = Magnitude {
            limbs: [
                self.limbs[0] & mask.limbs[0],
                self.limbs[1] & mask.limbs[1],
                self.limbs[2] & mask.limbs[2],
                self.limbs[3] & mask.limbs[3],
            ],
        };
        kept.equal(self)
    }
}
