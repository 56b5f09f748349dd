// The key list and the entries of document 01: how their bytes are read, and what is refused of them (2, 3, 4, 19, 20).
//
// A list and an entry are lent as bytes, of any length, and are never copied: a key is known by its record's index. What
// each function answers is document 01's definition of the bytes that were lent, and no byte past their end is read.
#![tactic(auto)]

mod conform;
mod entry;
mod find;
mod laid;
mod list;
mod record;
mod rules;

pub use conform::check_entry;
pub use entry::{Entry, Matched, same_record};
pub use find::find_key;
pub use laid::{entry_at, entry_size};
pub use list::{check_list, check_names};
pub use record::KeyRecord;
