// Writing nodes. Each function writes the eight words of one node and nothing else.
ghost use Rattle.std.specs.Prelude.{◌≡◌, [], ◌∷◌, ◌+◌, ◌*◌, ◌≤◌, ◌<◌, length};
ghost use Rattle.std.proofs.lemmas.List.Edits.{sets};
ghost use Rattle.paper.specs.Grammar as G;
ghost use Rattle.number.specs.Bases.{literal_meant};
ghost use Rattle.trees.specs.Standing.{prefix_meant, join_meant, comparison_meant};
ghost use Rattle.trees.specs.Words.{leaf_words, operator_words, words, prefix_no, join_no, comparison_no, operator_no};

use crate::kinds;
use crate::node::{Comparison, Join, Node, Operator, Prefix};
use number::Literal;

// The words of a node but for the last, which is a mark and is not known yet.
#[derive(Clone, Copy)]
struct Row {
    kind: u32,
    place: u32,
    left: u32,
    a: u32,
    b: u32,
    c: u32,
    d: u32,
}

fn put(nodes: &mut [u32], node: usize, row: Row)
    requires { node * 8 + 8 ≤ length nodes.old }
    ensures { nodes.new ≡ sets nodes.old (node * 8) (row.kind ∷ row.place ∷ row.left ∷ row.a ∷ row.b ∷ row.c ∷ row.d ∷ 0 ∷ []) }
{
    let at = node * Node::WORDS;
    nodes[at] = row.kind;
    nodes[at + 1] = row.place;
    nodes[at + 2] = row.left;
    nodes[at + 3] = row.a;
    nodes[at + 4] = row.b;
    nodes[at + 5] = row.c;
    nodes[at + 6] = row.d;
    nodes[at + 7] = 0;
}

// Stores the node of `true` or `false`.
pub fn put_truth(nodes: &mut [u32], node: usize, place: u32, truth: bool)
    requires { node * 8 + 8 ≤ length nodes.old }
    ensures { nodes.new ≡ sets nodes.old (node * 8) (words node (G.truth place truth)) }
{
    let row = Row {
        kind: kinds::TRUTH,
        place,
        left: 0,
        a: u32::from(truth),
        b: 0,
        c: 0,
        d: 0,
    };
    put(nodes, node, row);
}

// Stores the node of a number: its base stands where an operator has its left operand, then its limbs.
pub fn put_number(nodes: &mut [u32], node: usize, place: u32, literal: Literal)
    requires { node * 8 + 8 ≤ length nodes.old }
    ensures { nodes.new ≡ sets nodes.old (node * 8) (words node (G.number place (literal_meant literal))) }
{
    let base = literal.base;
    let number = literal.number;
    let row = Row {
        kind: kinds::NUMBER,
        place,
        left: base.radix(),
        a: number.limbs[0],
        b: number.limbs[1],
        c: number.limbs[2],
        d: number.limbs[3],
    };
    put(nodes, node, row);
}

// A key, whose name begins and ends at two offsets in the text.
pub fn put_key(nodes: &mut [u32], node: usize, from: u32, to: u32)
    requires { node * 8 + 8 ≤ length nodes.old }
    ensures { nodes.new ≡ sets nodes.old (node * 8) (leaf_words 2 from from to 0 0) }
{
    let row = Row {
        kind: kinds::KEY,
        place: from,
        left: 0,
        a: from,
        b: to,
        c: 0,
        d: 0,
    };
    put(nodes, node, row);
}

// A key that stands in no text, whose name begins and ends at two offsets elsewhere.
pub fn put_name(nodes: &mut [u32], node: usize, from: u32, to: u32)
    requires { node * 8 + 8 ≤ length nodes.old }
    ensures { nodes.new ≡ sets nodes.old (node * 8) (leaf_words 2 0 from to 0 0) }
{
    let row = Row {
        kind: kinds::KEY,
        place: 0,
        left: 0,
        a: from,
        b: to,
        c: 0,
        d: 0,
    };
    put(nodes, node, row);
}

// A field of a key: the offsets of the key's name, then those of the field's.
pub fn put_field(nodes: &mut [u32], node: usize, from: u32, to: u32, start: u32, end: u32)
    requires { node * 8 + 8 ≤ length nodes.old }
    ensures { nodes.new ≡ sets nodes.old (node * 8) (leaf_words 3 from from to start end) }
{
    let row = Row {
        kind: kinds::FIELD,
        place: from,
        left: 0,
        a: from,
        b: to,
        c: start,
        d: end,
    };
    put(nodes, node, row);
}

// An attribute: the place of its "::", and the offsets of its name.
pub fn put_attribute(nodes: &mut [u32], node: usize, place: u32, from: u32, to: u32)
    requires { node * 8 + 8 ≤ length nodes.old }
    ensures { nodes.new ≡ sets nodes.old (node * 8) (leaf_words 4 place 0 0 from to) }
{
    let row = Row {
        kind: kinds::ATTRIBUTE,
        place,
        left: 0,
        a: 0,
        b: 0,
        c: from,
        d: to,
    };
    put(nodes, node, row);
}

fn prefix_number(o: Prefix) -> u32
    ensures { result ≡ prefix_no (prefix_meant o) }
{
    match o {
        Prefix::Not => kinds::NOT,
        Prefix::Minus => kinds::MINUS,
    }
}

fn join_number(o: Join) -> u32
    ensures { result ≡ join_no (join_meant o) }
{
    match o {
        Join::Sequel => kinds::SEQUEL,
        Join::Implies => kinds::IMPLIES,
        Join::Or => kinds::OR,
        Join::And => kinds::AND,
    }
}

fn comparison_number(c: Comparison) -> u32
    ensures { result ≡ comparison_no (comparison_meant c) }
{
    match c {
        Comparison::Equal => kinds::EQUAL,
        Comparison::Unequal => kinds::UNEQUAL,
        Comparison::Greater => kinds::GREATER,
        Comparison::AtLeast => kinds::AT_LEAST,
        Comparison::Less => kinds::LESS,
        Comparison::AtMost => kinds::AT_MOST,
    }
}

fn operator_number(o: Operator) -> u32
    ensures { result ≡ operator_no o }
{
    match o {
        Operator::Joins(j) => join_number(j),
        Operator::Compares(c) => comparison_number(c),
    }
}

// An operator before its operand, which is the node before it.
pub fn put_prefix(nodes: &mut [u32], node: usize, place: u32, o: Prefix)
    requires { node * 8 + 8 ≤ length nodes.old }
    ensures { nodes.new ≡ sets nodes.old (node * 8) (operator_words (prefix_no (prefix_meant o)) place 0) }
{
    let row = Row {
        kind: prefix_number(o),
        place,
        left: 0,
        a: 0,
        b: 0,
        c: 0,
        d: 0,
    };
    put(nodes, node, row);
}

// An operator between its left operand, a node that is named, and its right one, the node before it.
pub fn put_operator(nodes: &mut [u32], node: usize, place: u32, o: Operator, left: usize)
    requires { (node * 8 + 8 ≤ length nodes.old) × (left < 65536) }
    ensures { nodes.new ≡ sets nodes.old (node * 8) (operator_words (operator_no o) place left) }
{
    let row = Row {
        kind: operator_number(o),
        place,
        left: left as u32,
        a: 0,
        b: 0,
        c: 0,
        d: 0,
    };
    put(nodes, node, row);
}
