// Nodes of tokens: the offsets of a token in the text, and the operator that it is.
ghost use Rattle.std.specs.Prelude.{◌≡◌, ◌≤◌, ◌<◌};
ghost use Rattle.std.proofs.lemmas.List.Edits.{sets};
ghost use Rattle.paper.specs.Tokens.{most_tokens};
ghost use Rattle.paper.specs.Grammar as G;
ghost use Rattle.number.specs.Bases.{literal_meant};
ghost use Rattle.tokens.specs.Tape.{Has, start_at, end_at, first_join, last_join, first_comparison, last_comparison, first_prefix, last_prefix};
ghost use Rattle.trees.specs.Standing.{prefix_meant, join_meant, comparison_meant};
ghost use Rattle.trees.specs.Words.{leaf_words, operator_words, words, prefix_no, join_no, comparison_no, operator_no};
ghost use Rattle.grammar.specs.Places.{Fits, node_at, joined_kind, prefixed_kind};

use number::Literal;
use tokens::kinds::{AT_LEAST, EQUAL, GREATER, IMPLIES, LESS, NOT, OR_ELSE, SEQUEL, UNEQUAL};
use tokens::rows::{end_at, start_at};
use trees::{Comparison, Join, Operator, Prefix};

pub(crate) fn put_field(tape: &[u32], nodes: &mut [u32], node: usize, token: usize, name: usize)
    requires { Fits nodes.old node × Has tape.now token × Has tape.now name }
    ensures { nodes.new ≡ sets nodes.old (node_at node)
        (leaf_words 3 (start_at tape.now token) (start_at tape.now token) (end_at tape.now token)
        (start_at tape.now name) (end_at tape.now name)) }
{
    trees::put_field(
        nodes,
        node,
        start_at(tape, token),
        end_at(tape, token),
        start_at(tape, name),
        end_at(tape, name),
    );
}

pub(crate) fn put_attribute(tape: &[u32], nodes: &mut [u32], node: usize, token: usize, name: usize)
    requires { Fits nodes.old node × Has tape.now token × Has tape.now name }
    ensures { nodes.new ≡ sets nodes.old (node_at node)
        (leaf_words 4 (start_at tape.now token) 0 0 (start_at tape.now name) (end_at tape.now name)) }
{
    trees::put_attribute(
        nodes,
        node,
        start_at(tape, token),
        start_at(tape, name),
        end_at(tape, name),
    );
}

pub(crate) fn put_number(
    tape: &[u32],
    nodes: &mut [u32],
    node: usize,
    token: usize,
    literal: Literal,
)
    requires { Fits nodes.old node × Has tape.now token }
    ensures { nodes.new ≡ sets nodes.old (node_at node) (words node (G.number (start_at tape.now token) (literal_meant literal))) }
{
    trees::put_number(nodes, node, start_at(tape, token), literal);
}

// The operators of signs.

fn join_of(sign: u32) -> Join
    requires { (first_join ≤ sign) × (sign ≤ last_join) }
    ensures { join_no (join_meant result) ≡ joined_kind sign }
{
    match sign {
        SEQUEL => Join::Sequel,
        IMPLIES => Join::Implies,
        OR_ELSE => Join::Or,
        _ => Join::And,
    }
}

fn comparison_of(sign: u32) -> Comparison
    requires { (first_comparison ≤ sign) × (sign ≤ last_comparison) }
    ensures { comparison_no (comparison_meant result) ≡ joined_kind sign }
{
    match sign {
        EQUAL => Comparison::Equal,
        UNEQUAL => Comparison::Unequal,
        GREATER => Comparison::Greater,
        AT_LEAST => Comparison::AtLeast,
        LESS => Comparison::Less,
        _ => Comparison::AtMost,
    }
}

fn operator_of(sign: u32) -> Operator
    requires { (first_join ≤ sign) × (sign ≤ last_comparison) }
    ensures { operator_no result ≡ joined_kind sign }
{
    if sign < EQUAL {
        return Operator::Joins(join_of(sign));
    }
    Operator::Compares(comparison_of(sign))
}

fn prefix_of(sign: u32) -> Prefix
    requires { (first_prefix ≤ sign) × (sign ≤ last_prefix) }
    ensures { prefix_no (prefix_meant result) ≡ prefixed_kind sign }
{
    if sign == NOT {
        return Prefix::Not;
    }
    Prefix::Minus
}

// The node of an operator between two operands.
pub(crate) fn put_joined(
    tape: &[u32],
    nodes: &mut [u32],
    node: usize,
    sign: u32,
    token: usize,
    left: usize,
)
    requires fits { Fits nodes.old node × Has tape.now token × (left < most_tokens) }
    requires first_join_le_sign { (first_join ≤ sign) × (sign ≤ last_comparison) }
    ensures { nodes.new ≡ sets nodes.old (node_at node) (operator_words (joined_kind sign) (start_at tape.now token) left) }
{
    trees::put_operator(nodes, node, start_at(tape, token), operator_of(sign), left);
}

// The node of an operator before its operand.
pub(crate) fn put_prefixed(tape: &[u32], nodes: &mut [u32], node: usize, sign: u32, token: usize)
    requires fits { Fits nodes.old node × Has tape.now token }
    requires first_prefix_le_sign { (first_prefix ≤ sign) × (sign ≤ last_prefix) }
    ensures { nodes.new ≡ sets nodes.old (node_at node) (operator_words (prefixed_kind sign) (start_at tape.now token) 0) }
{
    trees::put_prefix(nodes, node, start_at(tape, token), prefix_of(sign));
}
