// One value: what a run holds on its stack, and what a judgement passes up. 36 bytes, none of them padding.
ghost use Rattle.std.specs.Prelude.{◌≡◌, ◌≤◌, min, pos};
ghost use Rattle.std.proofs.Math.Option.{some};
ghost use Rattle.paper.specs.Keys.{kind_of};
ghost use Rattle.paper.specs.Code.{field_of};
ghost use Rattle.paper.specs.Meaning as paper;
ghost use Rattle.paper.specs.Meaning.{ty_of, one_value, field_in, is_true};
ghost use Rattle.number.specs.Values.{value, signed, whole_of};
ghost use Rattle.values.specs.Typed.{ty_meant};
ghost use Rattle.values.specs.Held.{held, match_from};

use crate::types::Type;
use keys::KeyRecord;
use number::{Magnitude, Whole};
use paper::{fields, kinds};

#[derive(Clone, Copy)]
pub enum Sort {
    Truth(bool),
    // Whether it is negative.
    Whole(bool),
    // Its kind. A number of bit<W> is the exact match of that number.
    Match(u8),
}

// A whole number's size is in `first`. A match has all four: `first` is its value or low, `second` its mask or high,
// and a width over 128 is read as 128, so that every cell holds a value that the operations can work on exactly.
#[derive(Clone, Copy)]
pub struct Cell {
    pub sort: Sort,
    pub width: u8,
    pub length: u8,
    pub first: Magnitude,
    pub second: Magnitude,
}

impl Cell {
    // The cell of a bool.
    pub fn truth(b: bool) -> Cell
        ensures { held result ≡ paper.truth b }
    {
        let none = Magnitude::zero();
        Cell {
            sort: Sort::Truth(b),
            width: 0,
            length: 0,
            first: none,
            second: none,
        }
    }

    // The cell of a whole number.
    pub(crate) fn of_whole(n: Whole) -> Cell
        ensures { held result ≡ paper.whole (whole_of n) }
    {
        Cell {
            sort: Sort::Whole(n.negative),
            width: 0,
            length: 0,
            first: n.size,
            second: Magnitude::zero(),
        }
    }

    // The cell of a whole number that is not negative.
    pub fn whole(size: Magnitude) -> Cell
        ensures { held result ≡ paper.whole (pos (value size)) }
    {
        Cell::of_whole(Whole::of(size))
    }

    // The cell of a match of a kind and a width.
    pub fn matched(kind: u8, width: u8, first: Magnitude, second: Magnitude, length: u8) -> Cell
        requires { width ≤ 128 }
        ensures { held result ≡ paper.matched (kind_of kind) width (match_from first second length) }
    {
        Cell {
            sort: Sort::Match(kind),
            width,
            length,
            first,
            second,
        }
    }

    // The cell of the match of one value.
    pub(crate) fn one_value(kind: u8, width: u8, n: Magnitude) -> Cell
        requires { width ≤ 128 }
        ensures { held result ≡ paper.matched (kind_of kind) width (one_value (kind_of kind) width (value n)) }
    {
        match kind {
            kinds::EXACT => Cell::matched(kind, width, n, Magnitude::zero(), 0),
            kinds::LPM => Cell::matched(kind, width, n, Magnitude::zero(), width),
            kinds::RANGE => Cell::matched(kind, width, n, n, 0),
            _ => Cell::matched(kind, width, n, Magnitude::ones(u32::from(width)), 0),
        }
    }

    // The cell of a field of a match, by its number in document 01.
    pub fn field(field: u8, width: u8, first: Magnitude, second: Magnitude, length: u8) -> Cell
        requires { width ≤ 128 }
        ensures { held result ≡ field_in width (field_of field) (match_from first second length) }
    {
        match field {
            fields::VALUE => Cell::one_value(kinds::EXACT, width, first),
            fields::MASK => Cell::one_value(kinds::EXACT, width, second),
            fields::PREFIX_LENGTH => Cell::whole(Magnitude::of(u32::from(length))),
            fields::LOW => Cell::one_value(kinds::EXACT, width, first),
            _ => Cell::one_value(kinds::EXACT, width, second),
        }
    }

    // Whether the cell holds the bool true.
    pub fn is_true(self) -> bool
        ensures { result ≡ is_true (some (held self)) }
    {
        matches!(self.sort, Sort::Truth(true))
    }

    // The type of what the cell holds.
    pub(crate) fn type_of(self) -> Type
        ensures { ty_meant result ≡ ty_of (held self) }
    {
        match self.sort {
            Sort::Truth(_) => Type::Bool,
            Sort::Whole(_) => Type::Int,
            Sort::Match(kind) => Type::Of(kind, self.width_held()),
        }
    }

    // The width as it is read.
    pub(crate) fn width_held(self) -> u8
        ensures { (result ≡ min self.width 128) × (result ≤ 128) }
    {
        self.width.min(KeyRecord::WIDEST)
    }

    // The whole number of this sign and the cell's size.
    pub(crate) fn as_whole(self, negative: bool) -> Whole
        ensures { whole_of result ≡ signed negative (value self.first) }
    {
        Whole {
            negative,
            size: self.first,
        }
    }
}
