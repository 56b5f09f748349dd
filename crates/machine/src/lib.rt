// The machine of document 01's "Blocks": its instructions, the load check of their types, and the run of loaded blocks on an entry.
//
// The check and the run go along the instructions with an array that has a place for each of 384 values: the check holds types there,
// and the run cells. The check also marks each point of its way by two numbers, how much is held and how much of it lies below the bools
// on top; a second loop then holds each skip's landing to the mark after the skip. `check_code` answers for all bytes that have room for
// n instructions: passed, or refusal 18 at its place. `run_each` is for blocks that load and entries that lie end to end, which it checks itself;
// of one that conforms no instruction can fail, and it tests nothing more. Its array is cleared once for all of them.
#![tactic(auto)]

mod checking;
mod decoding;
mod following;
mod holding;
mod instruction;
mod packing;
mod running;

pub use checking::check_code;
pub use decoding::place_of;
pub use running::{ACCEPTED, REFUSED, VIOLATED, run_each};
