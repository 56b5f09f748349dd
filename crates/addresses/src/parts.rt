// One part of a string, between two separators.
ghost use Rattle.std.specs.Prelude.{◌≡◌, ◌≤◌, length};
ghost use Rattle.paper.specs.Addresses as paper;
ghost use Rattle.addresses.specs.Reads.{scheme, is_part, zero_first};

use crate::Scheme;
use spelling::bytes::{DECIMAL, HEX, digit_of};
use spelling::runs::{Run, run_end};

fn all_digits(part: &[u8], base: u8) -> bool
    ensures { result ≡ paper.all_digits base part.now }
{
    run_end(part, 0, Run::Digits(base)) == part.len()
}

// The number that a part of at most four digits is in a base.
pub(crate) fn value_of(part: &[u8], base: u8) -> u32
    requires { (length part.now ≤ 4) × (base ≤ 16) }
    ensures { result ≡ paper.value_of base part.now }
{
    let mut value = 0;
    for byte in part {
        value = value * base as u32 + digit_of(*byte) as u32;
    }
    value
}

// A 0 before another digit.
fn zero_first(part: &[u8]) -> bool
    ensures { result ≡ zero_first part.now }
{
    matches!(part, [b'0', _, ..])
}

// 0 to 255.
fn is_decimal(part: &[u8]) -> bool
    ensures { result ≡ paper.is_decimal part.now }
{
    1 <= part.len()
        && part.len() <= 3
        && all_digits(part, DECIMAL)
        && !zero_first(part)
        && value_of(part, DECIMAL) <= 255
}

fn is_pair(part: &[u8]) -> bool
    ensures { result ≡ paper.is_pair part.now }
{
    part.len() == 2 && all_digits(part, HEX)
}

fn is_group(part: &[u8]) -> bool
    ensures { result ≡ paper.is_group part.now }
{
    1 <= part.len() && part.len() <= 4 && all_digits(part, HEX)
}

// Whether bytes are a part of an address of a scheme.
pub(crate) fn is_part(kind: Scheme, part: &[u8]) -> bool
    ensures { result ≡ is_part (scheme kind) part.now }
{
    match kind {
        Scheme::Ipv4 => is_decimal(part),
        Scheme::Ipv6 => is_group(part),
        Scheme::Mac => is_pair(part),
    }
}
