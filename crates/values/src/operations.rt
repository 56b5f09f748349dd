// What the operators make of their operands. Where the paper gives no value, any cell is right.
// Connectives are bytes and no enum: `connected` takes any, and reads one past the last as the last.
ghost use Rattle.std.specs.Prelude.{◌≡◌, ◌≤◌};
ghost use Rattle.paper.specs.Keys.{kind_of};
ghost use Rattle.paper.specs.Meaning as paper;
ghost use Rattle.paper.specs.Meaning.{not_value, negate_value, join_value, convert_value};
ghost use Rattle.number.specs.Values.{value};
ghost use Rattle.values.specs.Held.{held, Is, as_number, connective_of};

use crate::cell::{Cell, Sort};
use crate::connectives;
use number::Magnitude;

// Any number over the last is read as the last.
fn connect(connective: u8, a: bool, b: bool) -> bool
    ensures { result ≡ paper.connect (connective_of connective) a b }
{
    match connective {
        connectives::BOTH => a & b,
        connectives::EITHER => a | b,
        _ => !a | b,
    }
}

impl Cell {
    // What "!" makes of the cell.
    pub fn inverted(self) -> Cell
        ensures { Is (not_value (held self)) (held result) }
    {
        Cell::truth(!self.is_true())
    }

    // What "-" makes of the cell.
    pub fn negated(self) -> Cell
        ensures { Is (negate_value (held self)) (held result) }
    {
        match self.sort {
            Sort::Truth(_) => self,
            Sort::Whole(negative) => Cell::of_whole(self.as_whole(negative).negated()),
            Sort::Match(kind) => {
                let width = self.width_held();
                Cell::one_value(kind, width, self.first.minus(u32::from(width)))
            }
        }
    }

    // What a connective makes of two cells.
    pub fn connected(self, connective: u8, right: Cell) -> Cell
        ensures { Is (join_value (connective_of connective) (held self) (held right)) (held result) }
    {
        Cell::truth(connect(connective, self.is_true(), right.is_true()))
    }

    fn as_number(self, width: u8) -> Magnitude
        requires { width ≤ 128 }
        ensures { value result ≡ as_number width (held self) }
    {
        match self.sort {
            Sort::Truth(_) => Magnitude::zero(),
            Sort::Whole(negative) => self.as_whole(negative).reduced(u32::from(width)),
            Sort::Match(_) => self.first,
        }
    }

    // The cell converted to a kind and a width.
    pub fn converted(self, kind: u8, width: u8) -> Cell
        requires { width ≤ 128 }
        ensures { Is (convert_value (kind_of kind) width (held self)) (held result) }
    {
        Cell::one_value(kind, width, self.as_number(width))
    }
}
