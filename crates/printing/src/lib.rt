// The print of a tree, into a lent slice.
//
// The walk goes left, operator, right, and the node number falls at each step. What is written is what the definition `print` says
// of the tree at the node, with the parentheses that it needs where it stands, for every content of the slices. Bytes are written
// one after the other; where some do not fit, none of them is written, and nothing after them.
#![tactic(auto)]

mod leaf;
mod put;
mod signs;
mod walk;

pub use signs::{Rung, left_rung, right_rung, rung_of};
pub use walk::write_tree;
