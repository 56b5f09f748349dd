// Sixteen bytes of a slice, big-endian.
ghost use Rattle.std.specs.Prelude.{◌≡◌, ◌+◌, ◌<◌, ◌≤◌, length};
ghost use Rattle.std.proofs.lemmas.List.Edits.{sets};
ghost use Rattle.paper.specs.Numbers.{number_at, big_endian};
ghost use Rattle.number.specs.Values.{value};

use crate::magnitude::Magnitude;

// The number that four bytes from an offset on are.
pub fn word(s: &[u8], at: usize) -> u32
    requires { at + 4 ≤ length s.now }
    ensures { result ≡ number_at s.now at 4 }
{
    u32::from_be_bytes([s[at], s[at + 1], s[at + 2], s[at + 3]])
}

fn put_word(out: &mut [u8], at: usize, n: u32)
    requires { at + 4 ≤ length out.old }
    ensures { out.new ≡ sets out.old at (big_endian 4 n) }
{
    out[at..at + 4].copy_from_slice(&n.to_be_bytes());
}

impl Magnitude {
    // The number that 16 bytes from an offset on are.
    pub fn from_bytes(s: &[u8], at: usize) -> Magnitude
        requires { at + 16 ≤ length s.now }
        ensures { value result ≡ number_at s.now at 16 }
    {
        Magnitude {
            limbs: [
                word(s, at + 12),
                word(s, at + 8),
                word(s, at + 4),
                word(s, at),
            ],
        }
    }

    // Writes the number into 16 bytes from an offset on; every other byte stays.
    pub fn put_bytes(self, out: &mut [u8], at: usize)
        requires { at + 16 ≤ length out.old }
        ensures { out.new ≡ sets out.old at (big_endian 16 (value self)) }
    {
        put_word(out, at, self.limbs[3]);
        put_word(out, at + 4, self.limbs[2]);
        put_word(out, at + 8, self.limbs[1]);
        put_word(out, at + 12, self.limbs[0]);
    }
}
