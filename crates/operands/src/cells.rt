// The value of a bare key, of a key's field, and of the priority.
ghost use Rattle.std.specs.Prelude.{◌≡◌, ◌≤◌, length, pos};
ghost use Rattle.paper.specs.Entry.{head_size, priority_of};
ghost use Rattle.paper.specs.Meaning.{whole, bare_value, field_value};
ghost use Rattle.paper.specs.Code.{field_of};
ghost use Rattle.keys.specs.Says.{keys_in};
ghost use Rattle.values.specs.Held.{held, Is};
ghost use Rattle.operands.specs.Conforming.{entry_in, Conforming};

use keys::{Entry, KeyRecord, Matched};
use number::Magnitude;
use values::Cell;

// The value of key k in an entry.
pub fn bare_cell(list: &[u8], entry: &[u8], k: usize) -> Cell
    requires { Conforming list.now entry.now }
    ensures { Is (bare_value (keys_in list.now) (entry_in list.now entry.now) k) (held result) }
{
    if list.len() / KeyRecord::SIZE <= k {
        return Cell::truth(false);
    }
    let key = KeyRecord::read(list, k);
    let m = Matched::read(list, entry, k);
    Cell::matched(key.kind, key.width, m.first, m.second, m.length)
}

// The value of a field of key k in an entry, by the field's number in document 01.
pub fn field_cell(list: &[u8], entry: &[u8], field: u8, k: usize) -> Cell
    requires { Conforming list.now entry.now }
    ensures { Is (field_value (keys_in list.now) (entry_in list.now entry.now) (field_of field) k) (held result) }
{
    if list.len() / KeyRecord::SIZE <= k {
        return Cell::truth(false);
    }
    let key = KeyRecord::read(list, k);
    let m = Matched::read(list, entry, k);
    Cell::field(field, key.width, m.first, m.second, m.length)
}

// The value of the entry's priority.
pub fn priority_cell(entry: &[u8]) -> Cell
    requires { head_size ≤ length entry.now }
    ensures { held result ≡ whole (pos (priority_of entry.now)) }
{
    Cell::whole(Magnitude::of(Entry::read(entry).priority))
}
