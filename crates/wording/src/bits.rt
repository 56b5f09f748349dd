// A number that loses bits, in words: the number, the width that it meets, and the numbers that fit it.
//
// The text is read again, and its tree says which comparison has the refused operand, and what stands on the other side: a key or one of its
// fields, under minus signs or none, since nothing else has a width. The key list has the width. The nodes are looked at by number, and one past
// the room is taken for none.
ghost use Rattle.std.specs.Prelude.{◌≤◌, length, IfSome};

use crate::say::Things;
use keys::KeyRecord;
use lines::{say, start};
use number::Magnitude;
use printing::Rung;
use std::io;
use trees::{Leaf, Node};

const MOST_NODES: usize = reading::MOST_NODES;

// The operand that is refused and the one beside it, by their nodes.
#[derive(Clone, Copy)]
struct Sides {
    number: usize,
    beside: usize,
}

fn node(nodes: &[u32], i: usize) -> Node
    requires { 8192 ≤ length nodes.now }
{
    if i < MOST_NODES {
        return Node::read(nodes, i);
    }
    Node::Without
}

fn is_at(nodes: &[u32], i: usize, place: usize) -> bool
    requires { 8192 ≤ length nodes.now }
{
    if i < MOST_NODES {
        return trees::place_at(nodes, i) == place;
    }
    false
}

// Of an operator, by the nodes of its operands.
fn sides_of(nodes: &[u32], left: usize, right: usize, place: usize) -> Option<Sides>
    requires { 8192 ≤ length nodes.now }
{
    if is_at(nodes, left, place) {
        return Some(Sides {
            number: left,
            beside: right,
        });
    }
    if is_at(nodes, right, place) {
        return Some(Sides {
            number: right,
            beside: left,
        });
    }
    None
}

// Of the node after one, if it is an operator between two operands.
fn sides_after(nodes: &[u32], right: usize, place: usize) -> Option<Sides>
    requires in_bounds { 8192 ≤ length nodes.now }
    requires right_bound { right ≤ 1024 }
{
    match node(nodes, right + 1) {
        Node::Between(_, left) => sides_of(nodes, left, right, place),
        _ => None,
    }
}

// The operator that has an operand at a place. No two nodes stand at one, so it is the comparison that is refused.
fn find_sides(nodes: &[u32], place: usize) -> Option<Sides>
    requires { 8192 ≤ length nodes.now }
{
    for right in 0..MOST_NODES {
        let sides = sides_after(nodes, right, place);
        if sides.is_some() {
            return sides;
        }
    }
    None
}

// The node under the minus signs of an operand.
fn under_signs(nodes: &[u32], i: usize) -> usize
    requires { 8192 ≤ length nodes.now }
{
    for at in (1..=i).rev() {
        let Node::Before(_) = node(nodes, at) else {
            return at;
        };
    }
    0
}

fn leaf(nodes: &[u32], i: usize) -> Leaf
    requires { 8192 ≤ length nodes.now }
{
    if i < MOST_NODES {
        return Leaf::read(nodes, i);
    }
    Leaf::Truth(false)
}

// The width of the key of a name, if it has one.
fn width_of_key(list: &[u8], name: &[u8]) -> Option<u32>
    ensures { IfSome result (λ w. 1 ≤ w) }
{
    let k = keys::find_key(list, name)?;
    if k < list.len() / KeyRecord::SIZE {
        let key = KeyRecord::read(list, k);
        return Some(u32::from(key.width)).filter(|w| 0 < *w);
    }
    None
}

// The width that a number meets beside an operand, if it meets one.
fn width_beside(text: &[u8], list: &[u8], nodes: &[u32], i: usize) -> Option<u32>
    requires { 8192 ≤ length nodes.now }
    ensures { IfSome result (λ w. 1 ≤ w) }
{
    match leaf(nodes, under_signs(nodes, i)) {
        Leaf::Key(key) | Leaf::Field(key, _) => width_of_key(list, trees::spelled(text, key)),
        _ => None,
    }
}

const DECIMAL: u32 = 10;

fn say_decimal(rt: &impl Print, n: Magnitude) -> io::Result<()> {
    let digits = n.digits_in(DECIMAL);
    say(
        rt,
        trees::stretch(&digits.bytes, digits.first, digits.bytes.len()),
    )
}

// The numbers that lose no bits at a width: from -2^(w - 1) to 2^w - 1.
fn say_range(rt: &impl Print, w: u32) -> io::Result<()>
    requires { 1 ≤ w }
{
    let half = Magnitude::ones(w - 1).wrapping_grow(1, 1);
    say(rt, b"-")?;
    say_decimal(rt, half)?;
    say(rt, b" to ")?;
    say_decimal(rt, Magnitude::ones(w))
}

// The operand as a print has it. There is room for every number in every base under as many signs as there may be.
fn say_operand(rt: &impl Print, text: &[u8], nodes: &[u32], i: usize) -> io::Result<()>
    requires { 8192 ≤ length nodes.now }
{
    if i < MOST_NODES {
        let mut room = [0u8; 256];
        let n = printing::write_tree(text, nodes, i, Rung::Tightest, 0, &mut room);
        return say(rt, start(&room, n));
    }
    Ok(())
}

// Whether the comparison was found, and is told.
fn say_sides(
    rt: &impl Print,
    text: &[u8],
    list: &[u8],
    nodes: &[u32],
    place: usize,
) -> io::Result<bool>
    requires { 8192 ≤ length nodes.now }
{
    let Some(sides) = find_sides(nodes, place) else {
        return Ok(false);
    };
    let Some(w) = width_beside(text, list, nodes, sides.beside) else {
        return Ok(false);
    };
    say_operand(rt, text, nodes, sides.number)?;
    print!(rt; " does not fit {}: ", Things(w as usize, "bit", "bits"))?;
    say_range(rt, w)?;
    say(rt, b"\n")?;
    Ok(true)
}

// Tells why the number at a place of a text loses bits, if the text and the list show it.
pub(crate) fn say_lost(
    rt: &impl Print,
    text: &[u8],
    list: &[u8],
    place: usize,
) -> io::Result<bool> {
    if reading::MOST_TEXT < text.len() {
        return Ok(false);
    }
    let mut nodes = [0u32; reading::NODE_WORDS];
    match reading::read_tree(text, &mut nodes) {
        Ok(_) => say_sides(rt, text, list, &nodes, place),
        Err(_) => Ok(false),
    }
}
