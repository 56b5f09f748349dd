// Pact contracts, the byte code of source document 000, as trees.
//
// A contract is read a byte at a time, and what stands before a byte is held by value: which clauses there are, what waits for its
// operand, and where each tree stands in the lent nodes. The tree of a contract is put there as it is read, and its names are those of the
// key list itself. The tokens and levels that its text will have are counted along, so that no more nodes are used than a text may have.
#![tactic(auto)]

mod assertions;
mod contracts;
mod fronts;
mod opcodes;
mod pieces;
mod sizes;

pub use contracts::{NODE_WORDS, Undrafted, draft};
