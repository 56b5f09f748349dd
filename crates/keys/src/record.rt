// A key's record in the key list.
ghost use Rattle.std.specs.Prelude.{◌≡◌, ◌<◌, ◌/◌, length};
ghost use Rattle.paper.specs.Keys.{record_at, record_size, record_ok, name_of};
ghost use Rattle.keys.specs.Names.{name_ok};
ghost use Rattle.keys.specs.Says.{KeyRead};

use paper::kinds;
use spelling::{bytes, word};

#[derive(Clone, Copy)]
pub struct KeyRecord {
    pub kind: u8,
    pub width: u8,
    // Whether an entry must hold the key.
    pub required: bool,
}

impl KeyRecord {
    pub const SIZE: usize = 80;

    pub const MOST: usize = 32;

    // Where the flag stands that says whether the key must be present.
    pub const FLAG: usize = 3;

    // The flag of a key that must be present, and the greatest that there is.
    pub const REQUIRED: u8 = 1;

    // Where the zeros between the flag and the name begin.
    pub const ZEROS: usize = 4;

    // Where the name begins.
    pub const NAME: usize = 16;

    pub const LONGEST: u8 = 64;

    pub const WIDEST: u8 = 128;

    // Reads the kind and the width of key k, and whether it must be present.
    pub fn read(list: &[u8], k: usize) -> KeyRecord
        requires { k < length list.now / record_size }
        ensures { KeyRead list.now k result }
    {
        let key = record_at(list, k);
        KeyRecord {
            kind: key[1],
            width: key[2],
            required: key[KeyRecord::FLAG] == KeyRecord::REQUIRED,
        }
    }

    // The name of key k, where it lies in the list.
    pub fn name(list: &[u8], k: usize) -> &[u8]
        requires { k < length list.now / record_size }
        ensures { result.now ≡ name_of (record_at list.now k) }
    {
        name_of(record_at(list, k))
    }
}

// The bytes of key k's record in the list.
pub(crate) fn record_at(list: &[u8], k: usize) -> &[u8]
    requires { k < length list.now / record_size }
    ensures result_value { result.now ≡ record_at list.now k }
    ensures result_len { length result.now ≡ record_size }
{
    let from = k * KeyRecord::SIZE;
    let to = from + KeyRecord::SIZE;
    &list[from..to]
}

// The name in a key's record, which it never leaves, whatever the record's first byte says.
pub(crate) fn name_of(key: &[u8]) -> &[u8]
    requires { length key.now ≡ record_size }
    ensures { result.now ≡ name_of key.now }
{
    let size = key[0];
    if KeyRecord::LONGEST < size {
        return &key[KeyRecord::NAME..];
    }
    let end = KeyRecord::NAME + usize::from(size);
    &key[KeyRecord::NAME..end]
}

fn name_ok(s: &[u8]) -> bool
    ensures { result ≡ name_ok s.now }
{
    word::is_key(s) && !bytes::same_bytes(s, b"true") && !bytes::same_bytes(s, b"false")
}

// Whether a key's record keeps its layout.
pub(crate) fn record_ok(key: &[u8]) -> bool
    requires { length key.now ≡ record_size }
    ensures { result ≡ record_ok key.now }
{
    let size = key[0];
    bytes::within(1, KeyRecord::LONGEST, size)
        && key[1] <= kinds::OPTIONAL
        && bytes::within(1, KeyRecord::WIDEST, key[2])
        && key[KeyRecord::FLAG] <= KeyRecord::REQUIRED
        && bytes::all_zero(&key[KeyRecord::ZEROS..KeyRecord::NAME])
        && name_ok(name_of(key))
        && bytes::all_zero(&key[KeyRecord::NAME + usize::from(size)..])
}
