// RFC 4291, section 2.2, forms 1 and 2: eight groups, or "::" in the place of those that are missing.
ghost use Rattle.std.specs.Prelude.{◌≡◌, ◌+◌, ◌%◌, ◌^◌, ◌≤◌, ◌<◌, length, drop, replicate};
ghost use Rattle.paper.specs.Numbers.{digits_after};
ghost use Rattle.paper.specs.Addresses as paper;
ghost use Rattle.number.specs.Values.{value};
ghost use Rattle.addresses.specs.Reads.{ReadAs, gap_at, Grouped};

use crate::Scheme;
use crate::groups::{PartsRead, groups, whole};
use number::Magnitude;

// Whether a "::" stands at an offset.
fn gap_at(string: &[u8], at: usize) -> bool
    requires { at < length string.now }
    ensures { result ≡ gap_at (drop at string.now) }
{
    matches!(&string[at..], [b':', b':', ..])
}

// How many bytes stand before the first "::", or all of them.
fn before_gap(string: &[u8]) -> usize
    ensures { result ≡ paper.before_gap string.now }
{
    (0..string.len())
        .take_while(|at| !gap_at(string, *at))
        .count()
}

// The groups on one side of a "::", of which there may be none, after a number.
fn side(string: &[u8], before: Magnitude) -> Option<PartsRead>
    ensures { Grouped paper.ipv6 (paper.groups string.now) (value before) (length string.now) result }
{
    if string.is_empty() {
        return Some(PartsRead {
            count: 0,
            number: before,
        });
    }
    groups(Scheme::Ipv6, string, before)
}

// A number with so many groups of zeros after it.
fn with_zeros(before: Magnitude, count: usize) -> Magnitude
    ensures { value result ≡ digits_after 65536 (value before) (replicate count 0) % 2 ^ 128 }
{
    (0..count).fold(before, |number, _| number.wrapping_grow(65536, 0))
}

// What stands before a "::" and after it.
fn gapped(left: &[u8], right: &[u8]) -> Option<Magnitude>
    ensures { ReadAs (paper.gapped (paper.groups left.now) (paper.groups right.now)) result }
{
    let first = side(left, Magnitude::zero())?;
    let second = side(right, Magnitude::zero())?;
    let count = first.count + second.count;
    if 7 < count {
        return None;
    }
    let all = side(right, with_zeros(first.number, 8 - count))?;
    Some(all.number)
}

// Reads the string of an ipv6 address.
pub(crate) fn read_ipv6(string: &[u8]) -> Option<Magnitude>
    ensures { ReadAs (paper.ipv6_of string.now) result }
{
    let gap = before_gap(string);
    if gap == string.len() {
        return whole(Scheme::Ipv6, string, 8);
    }
    gapped(&string[..gap], &string[gap + 2..])
}
