// Addresses: the numbers that ipv4, ipv6 and mac strings stand for, by document 01.
//
// `scheme_of` tells which word begins an address, and `read` what its string is: bad, or a number below 2^128. Both
// take bytes of any length and content, and answer what the definitions give (`scheme_of`, `address`).
#![tactic(auto)]

mod groups;
mod ipv6;
mod parts;

ghost use Rattle.std.specs.Prelude.{◌≡◌};
ghost use Rattle.paper.specs.Addresses as paper;
ghost use Rattle.addresses.specs.Reads.{named, scheme, ReadAs};

use number::Magnitude;
use spelling::bytes::same_bytes;

#[derive(Clone, Copy)]
pub enum Scheme {
    Ipv4,
    Ipv6,
    Mac,
}

// The scheme of which a word begins an address, if it begins one.
pub fn scheme_of(word: &[u8]) -> Option<Scheme>
    ensures { named result ≡ paper.scheme_of word.now }
{
    if same_bytes(word, b"ipv4") {
        Some(Scheme::Ipv4)
    } else if same_bytes(word, b"ipv6") {
        Some(Scheme::Ipv6)
    } else if same_bytes(word, b"mac") {
        Some(Scheme::Mac)
    } else {
        None
    }
}

// Reads the string of an address: the number that it stands for, if it is good.
pub fn read(kind: Scheme, string: &[u8]) -> Option<Magnitude>
    ensures { ReadAs (paper.address (scheme kind) string.now) result }
{
    match kind {
        Scheme::Ipv4 => groups::whole(kind, string, 4),
        Scheme::Ipv6 => ipv6::read_ipv6(string),
        Scheme::Mac => groups::whole(kind, string, 6),
    }
}
