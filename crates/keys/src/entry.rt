// The bytes of an entry: its head, and a record for each key.
ghost use Rattle.std.specs.Prelude.{◌≡◌, ◌+◌, ◌*◌, ◌/◌, ◌≤◌, ◌<◌, length};
ghost use Rattle.paper.specs.Numbers.{byte_at};
ghost use Rattle.paper.specs.Tokens.{same_bytes};
ghost use Rattle.paper.specs.Keys.{record_size, record_at, kind_of, key_of};
ghost use Rattle.paper.specs.Entry.{head_size, priority_of, match_size, match_at, spelled_out, absent, match_of};
ghost use Rattle.keys.specs.Says.{meant};

use crate::record::KeyRecord;
use number::Magnitude;
use paper::kinds;
use spelling::bytes;

// What the head holds.
#[derive(Clone, Copy)]
pub struct Entry {
    pub priority: u32,
}

impl Entry {
    // Where the keys' records begin.
    pub const HEAD: usize = 4;

    pub const HIGHEST: u32 = 0x7fff_ffff;

    // Reads the head of an entry.
    pub fn read(entry: &[u8]) -> Entry
        requires { head_size ≤ length entry.now }
        ensures { result.priority ≡ priority_of entry.now }
    {
        Entry {
            priority: number::word(entry, 0),
        }
    }
}

// What a key's record reads as: value or low, mask or high, prefix length.
#[derive(Clone, Copy)]
pub struct Matched {
    pub first: Magnitude,
    pub second: Magnitude,
    pub length: u8,
}

impl Matched {
    pub const SIZE: usize = 36;

    // Reads the record of key k in an entry, present or absent.
    pub fn read(list: &[u8], entry: &[u8], k: usize) -> Matched
        requires k_in_bounds { k < length list.now / record_size }
        requires k_bound { byte_at (record_at list.now k) 2 ≤ 128 }
        requires match_size_in_bounds { head_size + (k + 1) * match_size ≤ length entry.now }
        ensures { meant result ≡ match_of (key_of (record_at list.now k)) (match_at entry.now k) }
    {
        let bytes = match_at(entry, k);
        if bytes[0] == 0 {
            return Matched::absent(KeyRecord::read(list, k));
        }
        Matched::spelled_out(bytes)
    }

    // Reads a record as it is spelled out, as if its key were present.
    pub(crate) fn spelled_out(bytes: &[u8]) -> Matched
        requires { length bytes.now ≡ match_size }
        ensures { meant result ≡ spelled_out bytes.now }
    {
        Matched {
            first: Magnitude::from_bytes(bytes, 4),
            second: Magnitude::from_bytes(bytes, 20),
            length: bytes[1],
        }
    }

    fn absent(key: KeyRecord) -> Matched
        requires { key.width ≤ 128 }
        ensures { meant result ≡ absent (kind_of key.kind) key.width }
    {
        let second = if key.kind == kinds::RANGE {
            Magnitude::ones(u32::from(key.width))
        } else {
            Magnitude::zero()
        };
        Matched {
            first: Magnitude::zero(),
            second,
            length: 0,
        }
    }
}

// The bytes of key k's record in an entry.
pub(crate) fn match_at(entry: &[u8], k: usize) -> &[u8]
    requires { head_size + (k + 1) * match_size ≤ length entry.now }
    ensures result_value { result.now ≡ match_at entry.now k }
    ensures result_len { length result.now ≡ match_size }
{
    let from = Entry::HEAD + k * Matched::SIZE;
    let to = from + Matched::SIZE;
    &entry[from..to]
}

// Whether the record of key k has the same bytes in two entries.
pub fn same_record(a: &[u8], b: &[u8], k: usize) -> bool
    requires match_size_in_bounds { head_size + (k + 1) * match_size ≤ length a.now }
    requires match_size_in_bounds_2 { head_size + (k + 1) * match_size ≤ length b.now }
    ensures { result ≡ same_bytes (match_at a.now k) (match_at b.now k) }
{
    bytes::same_bytes(match_at(a, k), match_at(b, k))
}
