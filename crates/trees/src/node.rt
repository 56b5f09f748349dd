// A node, as an enum.
ghost use Rattle.std.specs.Prelude.{◌≡◌, cond, ◌+◌, ◌*◌, ◌≤◌, eqb, ltb, length};
ghost use Rattle.paper.specs.Code as C;
ghost use Rattle.trees.specs.Standing.{comparison_meant};
ghost use Rattle.trees.specs.Nodes.{leaf_of, leaf_at, node_of, node_at, place_at, prefix_of, join_of, comparison_of, operator_of};

use crate::kinds;
use number::Base;

#[derive(Clone, Copy)]
pub enum Prefix {
    Not,
    Minus,
}

#[derive(Clone, Copy)]
pub enum Join {
    Sequel,
    Implies,
    Or,
    And,
}

#[derive(Clone, Copy)]
pub enum Comparison {
    Equal,
    Unequal,
    Greater,
    AtLeast,
    Less,
    AtMost,
}

impl Comparison {
    // The paper's number.
    pub fn number(self) -> u8
        ensures numbered { result ≡ C.comparison_no (comparison_meant self) }
        ensures meant { C.comparison_of result ≡ comparison_meant self }
    {
        match self {
            Comparison::Equal => 0,
            Comparison::Unequal => 1,
            Comparison::Greater => 2,
            Comparison::AtLeast => 3,
            Comparison::Less => 4,
            Comparison::AtMost => 5,
        }
    }
}

// Offsets in the text: of a name's first byte, and past its last.
#[derive(Clone, Copy)]
pub struct Span {
    pub from: usize,
    pub to: usize,
}

// A node with no operand.
#[derive(Clone, Copy)]
pub enum Leaf {
    Truth(bool),
    Number(Base, u32, u32, u32, u32),
    Key(Span),
    Field(Span, Span),
    Attribute(Span),
}

// An operator between two operands.
#[derive(Clone, Copy)]
pub enum Operator {
    Joins(Join),
    Compares(Comparison),
}

// What a node is. The operand, or the right one, is the node before it; the left one is named.
#[derive(Clone, Copy)]
pub enum Node {
    Without,
    Before(Prefix),
    Between(Operator, usize),
}

fn span_of(from: u32, to: u32) -> Span
    ensures { result ≡ record { from = from; to = to } }
{
    Span {
        from: from as usize,
        to: to as usize,
    }
}

fn prefix_of(kind: u32) -> Prefix
    ensures { result ≡ prefix_of kind }
{
    match kind {
        kinds::NOT => Prefix::Not,
        _ => Prefix::Minus,
    }
}

fn join_of(kind: u32) -> Join
    ensures { result ≡ join_of kind }
{
    match kind {
        kinds::SEQUEL => Join::Sequel,
        kinds::IMPLIES => Join::Implies,
        kinds::OR => Join::Or,
        _ => Join::And,
    }
}

fn comparison_of(kind: u32) -> Comparison
    ensures { result ≡ comparison_of kind }
{
    match kind {
        kinds::EQUAL => Comparison::Equal,
        kinds::UNEQUAL => Comparison::Unequal,
        kinds::GREATER => Comparison::Greater,
        kinds::AT_LEAST => Comparison::AtLeast,
        kinds::LESS => Comparison::Less,
        _ => Comparison::AtMost,
    }
}

// An operator whose operands do not stand below it, which no text makes, is read as false.
fn operator_of(kind: u32, i: usize, left: usize) -> Node
    ensures { result ≡ operator_of kind i left }
{
    if kind < kinds::SEQUEL {
        if i == 0 {
            return Node::Without;
        }
        return Node::Before(prefix_of(kind));
    }
    if i <= left {
        return Node::Without;
    }
    if kind < kinds::EQUAL {
        return Node::Between(Operator::Joins(join_of(kind)), left);
    }
    Node::Between(Operator::Compares(comparison_of(kind)), left)
}

// The leaf of a node; of a node that is none, false.
fn leaf_of(kind: u32, base: u32, a: u32, b: u32, c: u32, d: u32) -> Leaf
    ensures { result ≡ leaf_of kind base a b c d }
{
    match kind {
        kinds::TRUTH => Leaf::Truth(a == 1),
        kinds::NUMBER => Leaf::Number(Base::of_radix(base), a, b, c, d),
        kinds::KEY => Leaf::Key(span_of(a, b)),
        kinds::FIELD => Leaf::Field(span_of(a, b), span_of(c, d)),
        kinds::ATTRIBUTE => Leaf::Attribute(span_of(c, d)),
        _ => Leaf::Truth(false),
    }
}

impl Leaf {
    // What a leaf holds. A node that is no leaf of a text reads as `false`.
    pub fn read(nodes: &[u32], i: usize) -> Leaf
        requires { i * 8 + 8 ≤ length nodes.now }
        ensures { result ≡ leaf_at nodes.now i }
    {
        let at = i * Node::WORDS;
        leaf_of(
            nodes[at],
            nodes[at + 2],
            nodes[at + 3],
            nodes[at + 4],
            nodes[at + 5],
            nodes[at + 6],
        )
    }
}

fn node_of(kind: u32, i: usize, left: usize) -> Node
    ensures { result ≡ node_of kind i left }
{
    if kind < kinds::NOT {
        return Node::Without;
    }
    operator_of(kind, i, left)
}

impl Node {
    pub const WORDS: usize = 8;

    // What a walk must know of a node to go on: its operator, and where its left operand stands.
    pub fn read(nodes: &[u32], i: usize) -> Node
        requires { i * 8 + 8 ≤ length nodes.now }
        ensures { result ≡ node_at nodes.now i }
    {
        let at = i * Node::WORDS;
        let left = nodes[at + 2] as usize;
        node_of(nodes[at], i, left)
    }
}

// The place of a node: an operator's, or that of a leaf's first byte.
pub fn place_at(nodes: &[u32], i: usize) -> usize
    requires { i * 8 + 8 ≤ length nodes.now }
    ensures { result ≡ place_at nodes.now i }
{
    nodes[i * Node::WORDS + 1] as usize
}
