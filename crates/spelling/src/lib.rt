// How bytes spell words and numerals: their classes, how far a run of them goes, and what a numeral counts.
//
// Each function answers what document 01's definition gives for the bytes from an offset on. None reads a byte
// that the text does not have.
#![tactic(auto)]

pub mod bytes;
pub mod numerals;
pub mod runs;
pub mod word;
