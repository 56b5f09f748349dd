// What stands before a byte of a contract, and what a byte makes of it.
ghost use Rattle.std.specs.Prelude.{◌≡◌, List, ℕ, ◌+◌, ◌*◌, ◌≤◌, ◌<◌, length, Some, None};
ghost use Rattle.std.proofs.Math.Option.{Option};
ghost use Rattle.paper.specs.Keys.{records_in};
ghost use Rattle.paper.specs.Grammar.{Tree};
ghost use Rattle.paper.specs.Contract as paper;
ghost use Rattle.paper.specs.Drafting.{inversion, link_of};
ghost use Rattle.trees.specs.Standing.{operator_on};
ghost use Rattle.drafting.specs.Opcodes.{linking_meant, opcode_meant, conjunction_meant};
ghost use Rattle.drafting.specs.Pieces.{Holds, Grown, Operands};
ghost use Rattle.drafting.specs.Assertions.{Named, assertion_meant, Fits};
ghost use Rattle.drafting.specs.Fronts.{Closable, PartIs, end_of, sequel_on, Represents, Ready, Steps};

use crate::assertions::{Assertion, put_assertion};
use crate::opcodes::{Comparator, Conjunction, Linking, Opcode, opcode_of};
use crate::pieces::Piece;
use keys::KeyRecord;
use trees::{Comparison, Join, Operator};

#[derive(Clone, Copy)]
pub struct Front {
    // The clauses that are closed, joined by ";".
    pub closed: Option<Piece>,
    // The clause that may go on.
    pub clause: Option<Piece>,
    // A conjunction that waits for its assertion.
    pub link: Option<Conjunction>,
    // A comparator that waits for its indices.
    pub opened: Option<Comparator>,
}

impl Front {
    // Before the first byte.
    pub(crate) fn start() -> Front
        ensures { (list table ns : List ℕ) → Represents list table ns result paper.at_start }
    {
        Front {
            closed: None,
            clause: None,
            link: None,
            opened: None,
        }
    }

    // A conjunction goes on with a clause, if it stands directly behind it.
    fn with_conjunction(self, j: Conjunction) -> Option<Front>
        ensures { (list table ns : List ℕ) (at : ℕ) (f : paper.Front) → Represents list table ns self f
            → Steps list table ns at (paper.with_conjunction at f.closed f.clause f.conjunction (conjunction_meant j)) result }
    {
        let Some(_) = self.clause else {
            return None;
        };
        let None = self.link else {
            return None;
        };
        Some(Front {
            link: Some(j),
            opened: None,
            ..self
        })
    }

    fn with_opcode(self, opcode: Opcode) -> Option<Front>
        ensures { (list table ns : List ℕ) (at : ℕ) (f : paper.Front) → Represents list table ns self f
            → Steps list table ns at (paper.with_opcode at f (opcode_meant opcode)) result }
    {
        match opcode {
            Opcode::Compares(o) => Some(Front {
                opened: Some(o),
                ..self
            }),
            Opcode::Conjoins(j) => self.with_conjunction(j),
        }
    }
}

// Exclusive or is "!=" of two bools.
fn link_of(linking: Linking) -> Operator
    ensures { (t u : Tree) → operator_on 0 result t u ≡ link_of (linking_meant linking) t u }
{
    match linking {
        Linking::And => Operator::Joins(Join::And),
        Linking::Or => Operator::Joins(Join::Or),
        Linking::Xor => Operator::Compares(Comparison::Unequal),
    }
}

// A clause goes on by a conjunction and the assertion behind it.
fn put_link(clause: Piece, j: Conjunction, next: Piece, nodes: &mut [u32]) -> Piece
    requires operands { Operands clause next nodes.old }
    requires end_in_bounds { (next.end * 8 + 16 ≤ length nodes.old) × (next.end < 60000) }
    ensures { (list : List ℕ) (start : ℕ) (t u : Tree) → Holds list nodes.old start clause t → Holds list nodes.old clause.end next u
        → Grown list nodes.old nodes.new start result (inversion j.inverted (link_of (linking_meant j.linking) t u)) }
{
    let joined = clause.joined(link_of(j.linking), next, nodes);
    joined.inverted(j.inverted, nodes)
}

// A clause behind those that are closed, with ";" between them.
pub(crate) fn put_closed(closed: Option<Piece>, clause: Piece, nodes: &mut [u32]) -> Piece
    requires { Closable closed clause nodes.old }
    ensures { (list : List ℕ) (o : Option Tree) (t : Tree) → PartIs list nodes.old 0 closed o → Holds list nodes.old (end_of closed) clause t
        → Grown list nodes.old nodes.new 0 result (sequel_on o t) }
{
    match closed {
        None => clause,
        Some(all) => all.joined(Operator::Joins(Join::Sequel), clause, nodes),
    }
}

impl Front {
    // Behind an assertion, where nothing waits.
    fn at(closed: Option<Piece>, clause: Piece) -> Front
        ensures { result ≡ record { closed = closed; clause = Some clause; link = None; opened = None } }
    {
        Front {
            closed,
            clause: Some(clause),
            link: None,
            opened: None,
        }
    }

    // An assertion goes on with the clause behind whose conjunction it stands; any other begins one, and closes the one before it.
    fn with_assertion(self, a: Assertion, names: &[u8], table: &[u64], nodes: &mut [u32]) -> Front
        requires fits { Fits names.now table.now a }
        requires ready { Ready names.now table.now nodes.old self }
        ensures { (f : paper.Front) → Represents names.now table.now nodes.old self f
            → Represents names.now table.now nodes.new result (paper.continued f.closed f.clause f.conjunction (assertion_meant a)) }
    {
        let Some(c) = self.clause else {
            return Front::at(self.closed, put_assertion(a, names, table, 0, nodes));
        };
        match self.link {
            None => {
                let all = put_closed(self.closed, c, nodes);
                let begun = put_assertion(a, names, table, all.end, nodes);
                Front::at(Some(all), begun)
            }
            Some(j) => {
                let next = put_assertion(a, names, table, c.end, nodes);
                Front::at(self.closed, put_link(c, j, next, nodes))
            }
        }
    }

    // What the next byte makes of it: the indices of a comparator that waits, or an opcode.
    pub(crate) fn with_byte(
        self,
        byte: u8,
        names: &[u8],
        table: &[u64],
        nodes: &mut [u32],
    ) -> Option<Front>
        requires named { Named names.now }
        requires ready { Ready names.now table.now nodes.old self }
        ensures { (at : ℕ) (f : paper.Front) → Represents names.now table.now nodes.old self f
            → Steps names.now table.now nodes.new at
            (paper.with_byte (records_in names.now) (length table.now) at f f.comparator byte) result }
    {
        let Some(o) = self.opened else {
            return self.with_opcode(opcode_of(byte)?);
        };
        let a = Assertion::new(o, byte);
        if !a.indexed(names.len() / KeyRecord::SIZE, table.len()) {
            return None;
        }
        Some(self.with_assertion(a, names, table, nodes))
    }
}
