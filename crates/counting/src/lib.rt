// A count of entries, laid end to end, by the parts of a text.
//
// An entry costs its check and one walk for each part: it is violated exactly where a part is false on it, so that the whole tree is not judged
// again. Numbers are added to those that stand, so that a file may be counted a stretch at a time. What they are to be is the definition
// `counts_of` (paper, specs/Counting).
#![tactic(auto)]

mod entries;
mod misses;
mod total;

pub use entries::{clear, tally};
pub use total::Totals;
