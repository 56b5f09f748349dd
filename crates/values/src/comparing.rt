// Comparisons of two values.
// Comparisons are bytes and no enum: `compares` takes any, and reads one past the last as the last.
ghost use Rattle.std.specs.Prelude.{◌≡◌};
ghost use Rattle.paper.specs.Code.{comparison_of};
ghost use Rattle.paper.specs.Meaning as paper;
ghost use Rattle.paper.specs.Meaning.{ty_of, same_value, less_value, compare_value, comparison_value};
ghost use Rattle.values.specs.Held.{held, like_value, Is};

use crate::cell::{Cell, Sort};
use crate::types;
use paper::comparisons;

impl Cell {
    fn same(self, other: Cell) -> bool
        ensures { result ≡ same_value (held self) (held other) }
    {
        match (self.sort, other.sort) {
            (Sort::Truth(a), Sort::Truth(b)) => a == b,
            (Sort::Whole(a), Sort::Whole(b)) => self.as_whole(a).equal(other.as_whole(b)),
            (Sort::Match(_), Sort::Match(_)) => self.first.equal(other.first)
                && self.second.equal(other.second)
                && self.length == other.length,
            _ => false,
        }
    }

    fn less(self, other: Cell) -> bool
        ensures { result ≡ less_value (held self) (held other) }
    {
        match (self.sort, other.sort) {
            (Sort::Whole(a), Sort::Whole(b)) => self.as_whole(a).less(other.as_whole(b)),
            (Sort::Match(_), Sort::Match(_)) => self.first.less(other.first),
            _ => false,
        }
    }

    fn holds(self, comparison: u8, right: Cell) -> bool
        ensures { result ≡ paper.holds (comparison_of comparison) (held self) (held right) }
    {
        match comparison {
            comparisons::EQUAL => self.same(right),
            comparisons::UNEQUAL => !self.same(right),
            comparisons::GREATER => right.less(self),
            comparisons::AT_LEAST => !self.less(right),
            comparisons::LESS => self.less(right),
            _ => !right.less(self),
        }
    }

    // The bool that a comparison makes of two operands of one type.
    pub fn compared(self, comparison: u8, right: Cell) -> Cell
        ensures { Is (compare_value (comparison_of comparison) (held self) (held right)) (held result) }
    {
        Cell::truth(self.holds(comparison, right))
    }

    // In the type of the other.
    fn like(self, other: Cell) -> Cell
        ensures { Is (like_value (ty_of (held other)) (held self)) (held result) }
    {
        if types::same(self.type_of(), other.type_of()) {
            return self;
        }
        match other.sort {
            Sort::Match(kind) => self.converted(kind, other.width_held()),
            _ => self,
        }
    }

    // Whether a comparison of two operands that meet in one type is true: the one that the other's type takes is converted
    // first.
    pub fn compares(self, comparison: u8, right: Cell) -> bool
        ensures { Is (comparison_value (comparison_of comparison) (held self) (held right)) (paper.truth result) }
    {
        if types::same(self.type_of(), right.type_of()) {
            return self.holds(comparison, right);
        }
        if types::takes(right.type_of(), self.type_of()) {
            return self.like(right).holds(comparison, right);
        }
        self.holds(comparison, right.like(self))
    }

    // The same as a cell. It is no call of the other, which has one caller and so is compiled into it: a judgement takes 3 % less.
    pub fn comparison(self, comparison: u8, right: Cell) -> Cell
        ensures { Is (comparison_value (comparison_of comparison) (held self) (held right)) (held result) }
    {
        if types::takes(right.type_of(), self.type_of()) {
            return self.like(right).compared(comparison, right);
        }
        self.compared(comparison, right.like(self))
    }
}
