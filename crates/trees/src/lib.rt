// The nodes of a tree, in a lent slice of numbers, eight words a node, in postfix order.
//
// A node is written by its number, and read by it as an enum; what its names name is marked in it later, once they are resolved. The definition `tree_at` says which tree has its root at a
// node; the walks above (types, values, code) are described by it, and proofs/Stored.antt shows that it is the tree whose
// words were written.
#![tactic(auto)]

mod kinds;
mod marks;
mod names;
mod node;
mod store;

pub use marks::{Operand, mark, name_at};
pub use names::{spelled, stretch};
pub use node::{Comparison, Join, Leaf, Node, Operator, Prefix, Span, place_at};
pub use store::{
    put_attribute, put_field, put_key, put_name, put_number, put_operator, put_prefix, put_truth,
};
