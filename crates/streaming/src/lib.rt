// Entries that stand end to end in files: each is judged, explained, run by blocks or rechecked, and told, and at the end how many were given each
// answer.
//
// Files may have any length: each streams through one buffer, as many whole entries at a time as this holds, so that none stands across two turns.
#![tactic(auto)]

mod entries;
mod ran;
mod rechecks;
mod sizes;
mod tally;

pub use entries::{Way, judge_file};
pub use rechecks::recheck_files;
