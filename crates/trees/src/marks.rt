// The marks of names. A leaf's names are looked up once, and what they name is marked in two words that such a leaf has free: the third,
// where an operator has its left operand and a number its base, and the last. So the walks read no text.
ghost use Rattle.std.specs.Prelude.{◌≡◌, ◌+◌, ◌*◌, ◌≤◌, length};
ghost use Rattle.trees.specs.Marks.{operand_of, operand_at, key_marked, field_marked, marking, name_at};

use crate::node::{Leaf, Node};

// What a node with no operand is, by its marks.
#[derive(Clone, Copy)]
pub enum Operand {
    Truth(bool),
    Number(u32, u32, u32, u32),
    // A key, by its index in the list.
    Key(usize),
    // A field, by its key's index and its own number.
    Field(usize, u8),
    // An attribute: whether it is the priority, the only one that there is.
    Attribute(bool),
    UnknownKey,
    // No field has the name that stands after a key.
    UnknownField,
}

// The highest mark of a field: its number and one.
const MOST_FIELD: u32 = 5;

fn key_marked(key: u32) -> Operand
    ensures { result ≡ key_marked key }
{
    match key {
        0 => Operand::UnknownKey,
        _ => Operand::Key(key as usize - 1),
    }
}

fn field_marked(key: u32, name: u32) -> Operand
    ensures { result ≡ field_marked key name }
{
    if key == 0 {
        return Operand::UnknownKey;
    }
    if name == 0 || MOST_FIELD < name {
        return Operand::UnknownField;
    }
    Operand::Field(key as usize - 1, (name - 1) as u8)
}

fn operand_of(leaf: Leaf, key: u32, name: u32) -> Operand
    ensures { result ≡ operand_of leaf key name }
{
    match leaf {
        Leaf::Truth(b) => Operand::Truth(b),
        Leaf::Number(_, a, b, c, d) => Operand::Number(a, b, c, d),
        Leaf::Key(_) => key_marked(key),
        Leaf::Field(_, _) => field_marked(key, name),
        Leaf::Attribute(_) => Operand::Attribute(name == 1),
    }
}

impl Operand {
    // What stands at a node with no operand, by its marks.
    pub fn read(nodes: &[u32], i: usize) -> Operand
        requires { i * 8 + 8 ≤ length nodes.now }
        ensures { result ≡ operand_at nodes.now i }
    {
        let leaf = Leaf::read(nodes, i);
        let at = i * Node::WORDS;
        operand_of(leaf, nodes[at + 2], nodes[at + 7])
    }
}

// Writes the marks of a node: of its key, and of the name after "::".
pub fn mark(nodes: &mut [u32], i: usize, key: u32, name: u32)
    requires { i * 8 + 8 ≤ length nodes.old }
    ensures { nodes.new ≡ marking nodes.old i key name }
{
    let at = i * Node::WORDS;
    nodes[at + 2] = key;
    nodes[at + 7] = name;
}

// The place of the name after "::".
pub fn name_at(nodes: &[u32], i: usize) -> usize
    requires { i * 8 + 8 ≤ length nodes.now }
    ensures { result ≡ name_at nodes.now i }
{
    nodes[i * Node::WORDS + 5] as usize
}
