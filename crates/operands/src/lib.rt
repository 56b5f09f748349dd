// The operands of a restriction that are not written in it: of a key, or of a field of a key, by the key's index in the list,
// its type and its value in an entry; and the value of the priority.
//
// An index may be any number: past the list there is no type, and any value is right. Types are told for every list; values for
// a good list and an entry that conforms to it, as the checks of the crate `keys` tell.
#![tactic(auto)]

mod cells;
mod types;

pub use cells::{bare_cell, field_cell, priority_cell};
pub use types::{bare_type, field_type_at};
