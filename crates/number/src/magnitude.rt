ghost use Rattle.std.specs.Prelude.{◌≡◌};
ghost use Rattle.number.specs.Values.{value};

// A number below 2^128, its lowest 32 bits first.
#[derive(Clone, Copy, PartialEq, Eq)]
pub struct Magnitude {
    pub limbs: [u32; 4],
}

// One more than a limb can hold.
const LIMB: u64 = 0x1_0000_0000;

impl Magnitude {
    // The number zero.
    pub fn zero() -> Magnitude
        ensures { value result ≡ 0 }
    {
        Magnitude::of(0)
    }

    // A number below 2^32.
    pub fn of(n: u32) -> Magnitude
        ensures { value result ≡ n }
    {
        Magnitude {
            limbs: [n, 0, 0, 0],
        }
    }

    // A number below 2^64.
    pub fn of_u64(n: u64) -> Magnitude
        ensures { value result ≡ n }
    {
        Magnitude {
            limbs: [(n % LIMB) as u32, (n / LIMB) as u32, 0, 0],
        }
    }
}
