// Files that a program's arguments name: their first bytes and their true size, the offsets of refusals in them, and what is said of one that
// cannot be read. The programs for people share this.
#![tactic(auto)]

mod arguments;
mod reading;
mod say;
mod sizes;

pub use arguments::{MOST_PATH, TOO_LONG, argument, argument_count, name_too_long};
pub use reading::{File, at_end, not_at_end, open_read, path_text, read_argument, read_full};
pub use say::{cannot, cannot_read};
pub use sizes::whole_entries;
