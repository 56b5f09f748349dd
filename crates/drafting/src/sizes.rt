// How large the text of a tree is. Each number is told exactly up to its limit; whatever is over a limit is told as one more than it, so
// that nothing is lost of what matters and no sum grows.
ghost use Rattle.std.specs.Prelude.{◌≡◌, ◌+◌, ◌<◌, min};
ghost use Rattle.paper.specs.Tokens as P;
ghost use Rattle.paper.specs.Grammar.{Tree};
ghost use Rattle.paper.specs.Grammar as G;
ghost use Rattle.trees.specs.Standing.{operator_on};
ghost use Rattle.printing.specs.Writing.{rung_meant};
ghost use Rattle.drafting.specs.Sizes.{Small, Sized, Stood};

use printing::{Rung, left_rung, right_rung, rung_of};
use trees::Operator;

pub const MOST_TOKENS: usize = 1024;

pub const MOST_LEVELS: usize = 64;

// The tokens and levels of a tree's text, and the rung of its operator.
#[derive(Clone, Copy)]
pub struct Size {
    pub tokens: usize,
    pub levels: usize,
    pub rung: Rung,
}

// The tokens and levels of an operand, with the parentheses that it needs where it stands.
#[derive(Clone, Copy)]
struct Extent {
    tokens: usize,
    levels: usize,
}

fn capped(n: usize, most: usize) -> usize
    requires { most < 65536 }
    ensures { result ≡ min n (most + 1) }
{
    n.min(most + 1)
}

// Where a rung is asked for.
fn standing(size: Size, rung: Rung) -> Extent
    requires { Small size }
    ensures { Stood size (rung_meant rung) result }
{
    let Size {
        tokens,
        levels,
        rung: own,
    } = size;
    if own.number() < rung.number() {
        Extent {
            tokens: tokens + 2,
            levels: levels + 1,
        }
    } else {
        Extent { tokens, levels }
    }
}

impl Size {
    // A name, a number or a truth.
    pub(crate) fn leaf() -> Size
        ensures { result ≡ record { tokens = 1; levels = 0; rung = Rung.Tightest } }
    {
        Size {
            tokens: 1,
            levels: 0,
            rung: Rung::Tightest,
        }
    }

    // Under a prefix operator.
    pub(crate) fn prefixed(self) -> Size
        requires { Small self }
        ensures small { Small result }
        ensures sized { (t : Tree) → Sized self t → Sized result (G.prefixed 0 P.not_sign t) }
    {
        let inside = standing(self, Rung::Tightest);
        Size {
            tokens: capped(inside.tokens + 1, MOST_TOKENS),
            levels: capped(inside.levels + 1, MOST_LEVELS),
            rung: Rung::Tightest,
        }
    }

    // Beside another, with an operator between them.
    pub(crate) fn beside(self, o: Operator, right: Size) -> Size
        requires { Small self × Small right }
        ensures small { Small result }
        ensures sized { (l : Tree) (t : Tree) → Sized self l → Sized right t → Sized result (operator_on 0 o l t) }
    {
        let before = standing(self, left_rung(o));
        let after = standing(right, right_rung(o));
        Size {
            tokens: capped(before.tokens + 1 + after.tokens, MOST_TOKENS),
            levels: capped(before.levels.max(after.levels), MOST_LEVELS),
            rung: rung_of(o),
        }
    }
}
