// What broke for an entry: the first part of the text that is false on it, or the key whose record is refused.
//
// The parts are those that the crate `reading` hands on in rows; each is judged by one walk at most. What is shown is numbers alone: the part's
// number from 1, its root's place and its stretch of the text, or the record's place and the stretch of the key's name in the list. What it is
// to be is the definition `reason_for` (paper, specs/Explained).
#![tactic(auto)]

mod first;
mod shown;

pub use shown::{of_entry, of_refusal};
