// Assertions: a comparator with its two indices, and its tree.
ghost use Rattle.std.specs.Prelude.{◌≡◌, List, ℕ, ◌+◌, ◌*◌, ◌≤◌, ◌<◌, length, get_or};
ghost use Rattle.paper.specs.Tokens.{decimal, literal_in};
ghost use Rattle.paper.specs.Keys.{record_at, records_in, name_of};
ghost use Rattle.paper.specs.Grammar as G;
ghost use Rattle.paper.specs.Pact.{left_index, right_index};
ghost use Rattle.paper.specs.Contract.{index_fits};
ghost use Rattle.paper.specs.Drafting.{comparison_of, operand_tree, assertion_tree};
ghost use Rattle.trees.specs.Standing.{comparison_meant};
ghost use Rattle.drafting.specs.Opcodes.{relation_meant, load_meant, comparator_meant};
ghost use Rattle.drafting.specs.Pieces.{Grown};
ghost use Rattle.drafting.specs.Assertions.{Named, names_in, assertion_meant, indexed, Fits};

use crate::opcodes::{Comparator, Load, Relation};
use crate::pieces::Piece;
use crate::sizes::Size;
use keys::KeyRecord;
use number::{Literal, Magnitude};
use trees::{Comparison, Operator};

// A byte of indices has the left one above the right one.
const INDICES: u8 = 16;

#[derive(Clone, Copy)]
pub struct Assertion {
    pub comparator: Comparator,
    pub left: usize,
    pub right: usize,
}

impl Assertion {
    // A comparator with the byte of its indices.
    pub(crate) fn new(comparator: Comparator, indices: u8) -> Assertion
        ensures { assertion_meant result ≡ record { comparator = comparator_meant comparator; left = left_index indices; right = right_index indices } }
    {
        Assertion {
            comparator,
            left: (indices / INDICES) as usize,
            right: (indices % INDICES) as usize,
        }
    }

    // Whether each index has a name or a user number, of so many.
    pub(crate) fn indexed(self, names: usize, users: usize) -> bool
        ensures { result ≡ indexed names users self }
    {
        let indices = match self.comparator.load {
            Load::User => users,
            Load::Input => names,
        };
        self.left < names && self.right < indices
    }
}

// The leaf of an input: its name, where it lies in the list.
fn put_input(names: &[u8], k: usize, at: usize, nodes: &mut [u32]) -> Piece
    requires named { Named names.now × (k < records_in names.now) }
    requires at_in_bounds { (at * 8 + 8 ≤ length nodes.old) × (at < 65536) }
    ensures { Grown names.now nodes.old nodes.new at result (G.key 0 (name_of (record_at names.now k))) }
{
    let key = k * KeyRecord::SIZE;
    let from = key + KeyRecord::NAME;
    let to = from + names[key] as usize;
    trees::put_name(nodes, at, from as u32, to as u32);
    Piece {
        size: Size::leaf(),
        end: at + 1,
    }
}

// The leaf of a user number.
fn put_user(value: u64, at: usize, nodes: &mut [u32]) -> Piece
    requires { (at * 8 + 8 ≤ length nodes.old) × (at < 65536) }
    ensures { (list : List ℕ) → Grown list nodes.old nodes.new at result (G.number 0 (literal_in decimal value)) }
{
    trees::put_number(nodes, at, 0, Literal::plain(Magnitude::of_u64(value)));
    Piece {
        size: Size::leaf(),
        end: at + 1,
    }
}

// The right operand of an assertion.
fn put_right(a: Assertion, names: &[u8], table: &[u64], at: usize, nodes: &mut [u32]) -> Piece
    requires fits { Fits names.now table.now a }
    requires at_in_bounds { (at * 8 + 8 ≤ length nodes.old) × (at < 65536) }
    ensures { Grown names.now nodes.old nodes.new at result
        (operand_tree (names_in names.now) table.now (load_meant a.comparator.load) a.right) }
{
    match a.comparator.load {
        Load::User => put_user(table[a.right], at, nodes),
        Load::Input => put_input(names, a.right, at, nodes),
    }
}

fn comparison_of(relation: Relation) -> Comparison
    ensures { comparison_meant result ≡ comparison_of (relation_meant relation) }
{
    match relation {
        Relation::Equal => Comparison::Equal,
        Relation::Greater => Comparison::Greater,
        Relation::AtLeast => Comparison::AtLeast,
    }
}

// The tree of an assertion, from a node on: its operands, the comparison, and "!" where it is inverted.
pub(crate) fn put_assertion(
    a: Assertion,
    names: &[u8],
    table: &[u64],
    at: usize,
    nodes: &mut [u32],
) -> Piece
    requires fits { Fits names.now table.now a }
    requires at_in_bounds { (at * 8 + 64 ≤ length nodes.old) × (at < 60000) }
    ensures { Grown names.now nodes.old nodes.new at result
        (assertion_tree (names_in names.now) table.now (assertion_meant a)) }
{
    let comparator = a.comparator;
    let left = put_input(names, a.left, at, nodes);
    let right = put_right(a, names, table, left.end, nodes);
    let o = Operator::Compares(comparison_of(comparator.relation));
    let compared = left.joined(o, right, nodes);
    compared.inverted(comparator.inverted, nodes)
}
