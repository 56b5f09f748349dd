// Trees in the lent nodes, each in a row of them whose last is its root.
ghost use Rattle.std.specs.Prelude.{List, ℕ};
ghost use Rattle.paper.specs.Drafting.{inversion};
ghost use Rattle.paper.specs.Grammar.{Tree};
ghost use Rattle.trees.specs.Standing.{operator_on};
ghost use Rattle.drafting.specs.Pieces.{Holds, Grown, Operand, Operands, Near};

use crate::sizes::{MOST_TOKENS, Size};
use trees::{Operator, Prefix};

// A tree: its size, and the node after its root. One that is over the limit of tokens is not put.
#[derive(Clone, Copy)]
pub struct Piece {
    pub size: Size,
    pub end: usize,
}

impl Piece {
    // The tree under "!", where that is asked for.
    pub(crate) fn inverted(self, yes: bool, nodes: &mut [u32]) -> Piece
        requires { Operand self nodes.old }
        ensures near { Near self.end result }
        ensures grown { (list : List ℕ) (start : ℕ) (t : Tree) → Holds list nodes.old start self t
            → Grown list nodes.old nodes.new start result (inversion yes t) }
    {
        if !yes {
            return self;
        }
        let end = self.end;
        let size = self.size.prefixed();
        if MOST_TOKENS < size.tokens {
            return Piece { size, end };
        }
        trees::put_prefix(nodes, end, 0, Prefix::Not);
        Piece { size, end: end + 1 }
    }

    // The tree and the one that stands behind it, with an operator between them.
    pub(crate) fn joined(self, o: Operator, right: Piece, nodes: &mut [u32]) -> Piece
        requires { Operands self right nodes.old }
        ensures near { Near right.end result }
        ensures grown { (list : List ℕ) (start : ℕ) (t u : Tree) → Holds list nodes.old start self t → Holds list nodes.old self.end right u
            → Grown list nodes.old nodes.new start result (operator_on 0 o t u) }
    {
        let end = right.end;
        let size = self.size.beside(o, right.size);
        if MOST_TOKENS < size.tokens {
            return Piece {
                size,
                end: self.end,
            };
        }
        trees::put_operator(nodes, end, 0, o, self.end - 1);
        Piece { size, end: end + 1 }
    }
}
