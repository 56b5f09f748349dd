// Document 01's "Types and meaning", rule by rule: what type an operator gives, and what it makes of its operands.
//
// One function a rule, by value, and its promise is one equation with the paper's definition of that rule, for every
// argument: kinds, fields, comparisons and connectives go by their numbers, and a number past the last is read as the
// last. Only a width that is handed over to be held in a cell must be at most 128. Whoever walks a tree or runs
// instructions has only to walk.
#![tactic(auto)]

mod cell;
mod comparing;
pub mod connectives;
pub mod fields;
pub mod numbering;
mod operations;
pub mod operators;
pub mod types;

pub use cell::Cell;
