// All parts of a string, one after the other.
ghost use Rattle.std.specs.Prelude.{◌≡◌, ◌+◌, ◌≤◌, ◌^◌, length, drop};
ghost use Rattle.paper.specs.Tokens.{span};
ghost use Rattle.number.specs.Values.{value};
ghost use Rattle.addresses.specs.Reads.{scheme, ReadAs, separates, within, parts_of, base_of, scale_of, Grouped, whole_of};

use crate::Scheme;
use crate::parts::{is_part, value_of};
use number::Magnitude;
use spelling::bytes::{DECIMAL, HEX};

// How many parts a string has, and the number that they are after another.
#[derive(Clone, Copy)]
pub struct PartsRead {
    pub count: usize,
    pub number: Magnitude,
}

fn separator(kind: Scheme) -> u8
    ensures { result ≡ separates (scheme kind) }
{
    match kind {
        Scheme::Ipv4 => b'.',
        Scheme::Ipv6 | Scheme::Mac => b':',
    }
}

fn base(kind: Scheme) -> u8
    ensures { (result ≡ base_of (scheme kind)) × (result ≤ 16) }
{
    match kind {
        Scheme::Ipv4 => DECIMAL,
        Scheme::Ipv6 | Scheme::Mac => HEX,
    }
}

fn scale(kind: Scheme) -> u32
    ensures { result ≡ scale_of (scheme kind) }
{
    match kind {
        Scheme::Ipv4 | Scheme::Mac => 256,
        Scheme::Ipv6 => 65536,
    }
}

// Reads all parts of a string, if they are good: how many they are, and the number that they are after another one.
pub(crate) fn groups(kind: Scheme, string: &[u8], before: Magnitude) -> Option<PartsRead>
    ensures { Grouped (scheme kind) (parts_of (scheme kind) string.now) (value before) (length string.now) result }
{
    let separator = separator(kind);
    let mut number = before;
    let mut count = 0;
    for part in string.split(|byte| *byte == separator) {
        if !is_part(kind, part) {
            return None;
        }
        number = number.wrapping_grow(scale(kind), value_of(part, base(kind)));
        count += 1;
    }
    Some(PartsRead { count, number })
}

// Reads a string of so many parts.
pub(crate) fn whole(kind: Scheme, string: &[u8], wanted: usize) -> Option<Magnitude>
    requires { scale_of (scheme kind) ^ wanted ≤ 2 ^ 128 }
    ensures { ReadAs (whole_of (scheme kind) wanted (parts_of (scheme kind) string.now)) result }
{
    let all = groups(kind, string, Magnitude::zero())?;
    if all.count == wanted {
        Some(all.number)
    } else {
        None
    }
}
