// Entries laid end to end.
ghost use Rattle.std.specs.Prelude.{◌≡◌, ◌+◌, ◌*◌, ◌≤◌, length, take, drop};
ghost use Rattle.paper.specs.Counting.{entry_size};
ghost use Rattle.keys.specs.Says.{keys_in};

use crate::entry::{Entry, Matched};
use crate::record::KeyRecord;

// The bytes of an entry for a key list.
pub fn entry_size(list: &[u8]) -> usize
    ensures { result ≡ entry_size (keys_in list.now) }
{
    Entry::HEAD + Matched::SIZE * (list.len() / KeyRecord::SIZE)
}

// The entry of an index.
pub fn entry_at(entries: &[u8], k: usize, size: usize) -> &[u8]
    requires { k * size + size ≤ length entries.now }
    ensures { result.now ≡ take size (drop (k * size) entries.now) }
{
    let from = k * size;
    let to = from + size;
    &entries[from..to]
}
