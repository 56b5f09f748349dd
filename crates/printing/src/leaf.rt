// Nodes with no operand.
ghost use Rattle.std.specs.Prelude.{◌+◌, ◌*◌, ◌≤◌, ◌++◌, length, drop};
ghost use Rattle.paper.specs.Tokens.{bytes};
ghost use Rattle.paper.specs.Print.{print, base_prefix, numeral_in, literal_bytes, truth_bytes};
ghost use Rattle.number.specs.Values.{value};
ghost use Rattle.number.specs.Bases.{base_meant, literal_meant};
ghost use Rattle.trees.specs.Nodes.{leaf_at, place_at};
ghost use Rattle.trees.specs.Standing.{leaf_on, spelling};
ghost use Rattle.printing.specs.Writing.{Wrote};

use crate::put;
use number::{Base, Literal, Magnitude};
use trees::{Leaf, Span};

// The bytes from an offset on.
fn write_rest(s: &[u8], first: usize, from: usize, out: &mut [u8]) -> usize
    requires { first ≤ length s.now }
    ensures { Wrote out.old from (drop first s.now) out.new result }
{
    put::write(&s[first..], from, out)
}

// What announces a base: nothing for decimal.
fn write_base(base: Base, from: usize, out: &mut [u8]) -> usize
    ensures { Wrote out.old from (base_prefix (base_meant base)) out.new result }
{
    match base {
        Base::Decimal => from,
        Base::Binary => put::write(b"0b", from, out),
        Base::Hex => put::write(b"0x", from, out),
    }
}

// The numeral of a limb, in few bytes of its own.
fn write_limb(n: u32, base: u32, from: usize, out: &mut [u8]) -> usize
    requires { (2 ≤ base) × (base ≤ 16) }
    ensures { Wrote out.old from (numeral_in base n) out.new result }
{
    let mut bytes = [0u8; number::MOST_LIMB_DIGITS];
    let first = number::put_limb_digits(n, base, &mut bytes);
    write_rest(&bytes, first, from, out)
}

// The numeral of a number. Nearly all have one limb, which is passed on by itself: the digits of several need four times the room.
fn write_digits(number: Magnitude, base: u32, from: usize, out: &mut [u8]) -> usize
    requires { (2 ≤ base) × (base ≤ 16) }
    ensures { Wrote out.old from (numeral_in base (value number)) out.new result }
{
    if !number.is_long() {
        return write_limb(number.limbs[0], base, from, out);
    }
    let digits = number.digits_in(base);
    write_rest(&digits.bytes, digits.first, from, out)
}

fn write_number(literal: Literal, from: usize, out: &mut [u8]) -> usize
    ensures { Wrote out.old from (literal_bytes (literal_meant literal)) out.new result }
{
    let base = literal.base;
    let announced = write_base(base, from, out);
    write_digits(literal.number, base.radix(), announced, out)
}

fn write_truth(truth: bool, from: usize, out: &mut [u8]) -> usize
    ensures { Wrote out.old from (truth_bytes truth) out.new result }
{
    if truth {
        put::write(b"true", from, out)
    } else {
        put::write(b"false", from, out)
    }
}

fn write_word(text: &[u8], word: Span, from: usize, out: &mut [u8]) -> usize
    ensures { Wrote out.old from (spelling text.now word) out.new result }
{
    put::write(trees::spelled(text, word), from, out)
}

// The name of a field or an attribute, after its "::".
fn write_name(text: &[u8], name: Span, from: usize, out: &mut [u8]) -> usize
    ensures { Wrote out.old from (bytes "::" ++ spelling text.now name) out.new result }
{
    let colons = put::write(b"::", from, out);
    write_word(text, name, colons, out)
}

fn write_field(text: &[u8], key: Span, name: Span, from: usize, out: &mut [u8]) -> usize
    ensures { Wrote out.old from (spelling text.now key ++ bytes "::" ++ spelling text.now name) out.new result }
{
    let word = write_word(text, key, from, out);
    write_name(text, name, word, out)
}

pub(crate) fn write_leaf(
    text: &[u8],
    nodes: &[u32],
    node: usize,
    from: usize,
    out: &mut [u8],
) -> usize
    requires { node * 8 + 8 ≤ length nodes.now }
    ensures { Wrote out.old from (print (leaf_on text.now (place_at nodes.now node) (leaf_at nodes.now node))) out.new result }
{
    match Leaf::read(nodes, node) {
        Leaf::Truth(truth) => write_truth(truth, from, out),
        Leaf::Number(base, a, b, c, d) => write_number(
            Literal {
                base,
                number: Magnitude {
                    limbs: [a, b, c, d],
                },
            },
            from,
            out,
        ),
        Leaf::Key(key) => write_word(text, key, from, out),
        Leaf::Field(key, name) => write_field(text, key, name, from, out),
        Leaf::Attribute(name) => write_name(text, name, from, out),
    }
}
