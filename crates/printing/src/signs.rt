// Operators: their signs, and the rungs of the ladder that decide on parentheses.
ghost use Rattle.std.specs.Prelude.{◌≡◌, ltb, [], if◌then◌else◌};
ghost use Rattle.paper.specs.Print.{prefix_bytes};
ghost use Rattle.trees.specs.Standing.{prefix_meant};
ghost use Rattle.printing.specs.Writing.{Wrote, rung_meant, operator_bytes, rung_between, left_between, right_between};

use crate::put;
use trees::{Comparison, Join, Operator, Prefix};

// From ";", the loosest, to prefix operators and atoms.
#[derive(Clone, Copy)]
pub enum Rung {
    Sequel,
    Implies,
    Or,
    And,
    Comparison,
    Tightest,
}

impl Rung {
    // The paper's number.
    pub fn number(self) -> u8
        ensures { result ≡ rung_meant self }
    {
        match self {
            Rung::Sequel => 0,
            Rung::Implies => 1,
            Rung::Or => 2,
            Rung::And => 3,
            Rung::Comparison => 4,
            Rung::Tightest => 5,
        }
    }
}

// The rung of what an operator makes.
pub fn rung_of(o: Operator) -> Rung
    ensures { rung_meant result ≡ rung_between o }
{
    match o {
        Operator::Joins(Join::Sequel) => Rung::Sequel,
        Operator::Joins(Join::Implies) => Rung::Implies,
        Operator::Joins(Join::Or) => Rung::Or,
        Operator::Joins(Join::And) => Rung::And,
        Operator::Compares(_) => Rung::Comparison,
    }
}

// Whether what an operator makes needs parentheses where a rung is asked for.
pub(crate) fn is_looser(o: Operator, rung: Rung) -> bool
    ensures { result ≡ ltb (rung_between o) (rung_meant rung) }
{
    rung_of(o).number() < rung.number()
}

// The rung that is asked for before an operator.
pub fn left_rung(o: Operator) -> Rung
    ensures { rung_meant result ≡ left_between o }
{
    match o {
        Operator::Joins(Join::Sequel) => Rung::Sequel,
        Operator::Joins(Join::Implies | Join::Or) => Rung::Or,
        Operator::Joins(Join::And) => Rung::And,
        Operator::Compares(_) => Rung::Tightest,
    }
}

// The rung that is asked for after it.
pub fn right_rung(o: Operator) -> Rung
    ensures { rung_meant result ≡ right_between o }
{
    match o {
        Operator::Joins(Join::Sequel) => Rung::Implies,
        Operator::Joins(Join::Implies) => Rung::Or,
        Operator::Joins(Join::Or) => Rung::And,
        Operator::Joins(Join::And) => Rung::Comparison,
        Operator::Compares(_) => Rung::Tightest,
    }
}

pub(crate) fn write_prefix(o: Prefix, from: usize, out: &mut [u8]) -> usize
    ensures { Wrote out.old from (prefix_bytes (prefix_meant o)) out.new result }
{
    match o {
        Prefix::Not => put::write(b"!", from, out),
        Prefix::Minus => put::write(b"-", from, out),
    }
}

// An operator between its blanks.
pub(crate) fn write_operator(o: Operator, from: usize, out: &mut [u8]) -> usize
    ensures { Wrote out.old from (operator_bytes o) out.new result }
{
    match o {
        Operator::Joins(Join::Sequel) => put::write(b" ; ", from, out),
        Operator::Joins(Join::Implies) => put::write(b" -> ", from, out),
        Operator::Joins(Join::Or) => put::write(b" || ", from, out),
        Operator::Joins(Join::And) => put::write(b" && ", from, out),
        Operator::Compares(Comparison::Equal) => put::write(b" == ", from, out),
        Operator::Compares(Comparison::Unequal) => put::write(b" != ", from, out),
        Operator::Compares(Comparison::Greater) => put::write(b" > ", from, out),
        Operator::Compares(Comparison::AtLeast) => put::write(b" >= ", from, out),
        Operator::Compares(Comparison::Less) => put::write(b" < ", from, out),
        Operator::Compares(Comparison::AtMost) => put::write(b" <= ", from, out),
    }
}

// A parenthesis where it is needed, else nothing.
pub(crate) fn write_needed(needed: bool, sign: &[u8], from: usize, out: &mut [u8]) -> usize
    ensures { Wrote out.old from (if needed then sign.now else []) out.new result }
{
    if needed {
        put::write(sign, from, out)
    } else {
        from
    }
}
