// What a text names: a summary, made by one walk over its tree, and whether two entries are the same in all of it.
//
// The walk goes left, then right, and the node number falls at each step. What it gives is the set of the keys that the definition `names`
// finds in the tree at its node, and the mark of the definition `marked`, where that tree has a type. What the tree's names name is read off
// the marks of its nodes, which the crate `resolving` writes.
#![tactic(auto)]

mod same;
mod set;
mod walk;

pub use same::same_named;
pub use set::count_keys;
pub use walk::summary_at;
