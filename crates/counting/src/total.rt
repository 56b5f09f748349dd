// How many entries are accepted, violated and refused.
ghost use Rattle.std.specs.Prelude.{◌≡◌, not, ◌+◌, ◌^◌, ◌<◌};
ghost use Rattle.paper.specs.CountedRight.{one};

#[derive(Clone, Copy, Default)]
pub struct Totals {
    pub accepted: u64,
    pub violated: u64,
    pub refused: u64,
}

impl Totals {
    // Of no entry.
    pub fn none() -> Totals
        ensures { (result.accepted ≡ 0) × (result.violated ≡ 0) × (result.refused ≡ 0) }
    {
        Totals::default()
    }

    // Of an entry that does not conform.
    pub(crate) fn refusal() -> Totals
        ensures { (result.accepted ≡ 0) × (result.violated ≡ 0) × (result.refused ≡ 1) }
    {
        Totals {
            refused: 1,
            ..Totals::none()
        }
    }

    // Of an entry that conforms.
    pub(crate) fn verdict(accepted: bool) -> Totals
        ensures { (result.accepted ≡ one accepted) × (result.violated ≡ one (not accepted)) × (result.refused ≡ 0) }
    {
        Totals {
            accepted: u64::from(accepted),
            violated: u64::from(!accepted),
            refused: 0,
        }
    }

    // Of the entries of both.
    pub fn plus(self, more: Totals) -> Totals
        requires { (self.accepted + more.accepted < 2 ^ 64) × (self.violated + more.violated < 2 ^ 64) × (self.refused + more.refused < 2 ^ 64) }
        ensures { (result.accepted ≡ self.accepted + more.accepted) × (result.violated ≡ self.violated + more.violated) × (result.refused ≡ self.refused + more.refused) }
    {
        Totals {
            accepted: self.accepted + more.accepted,
            violated: self.violated + more.violated,
            refused: self.refused + more.refused,
        }
    }
}
