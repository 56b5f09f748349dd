// The instructions of operators.
ghost use Rattle.std.specs.Prelude.{◌≡◌};
ghost use Rattle.paper.specs.Meaning.{connective};
ghost use Rattle.paper.specs.Code.{parts_of, connects, skip};
ghost use Rattle.paper.specs.Translating.{operation};
ghost use Rattle.trees.specs.Standing.{prefix_meant, join_meant};
ghost use Rattle.translating.specs.Own as spec;
ghost use Rattle.translating.specs.Writing.{parts_meant};

use crate::put;
use crate::put::Parts;
use paper::operations;
use trees::{Join, Operator, Prefix};

pub(crate) fn prefix_parts(o: Prefix) -> Parts
    ensures { parts_meant result ≡ parts_of (operation (prefix_meant o)) }
{
    match o {
        Prefix::Not => put::plain(operations::NOT, 0, 0),
        Prefix::Minus => put::plain(operations::NEGATE, 0, 0),
    }
}

// ";" and "&&" both give "and".
fn join_parts(o: Join) -> Parts
    ensures { parts_meant result ≡ parts_of (connects (connective (join_meant o))) }
{
    match o {
        Join::Sequel | Join::And => put::plain(operations::AND, 0, 0),
        Join::Or => put::plain(operations::OR, 0, 0),
        Join::Implies => put::plain(operations::IMPLIES, 0, 0),
    }
}

// "and" is settled by a left operand that is false, "or" by one that is true, "implies" by one that is false, and is then true.
pub(crate) fn skip_parts(o: Join, over: usize) -> Parts
    ensures { parts_meant result ≡ parts_of (skip (spec.settled (connective (join_meant o)) over)) }
{
    match o {
        Join::Sequel | Join::And => put::skip(false, false, over),
        Join::Or => put::skip(true, true, over),
        Join::Implies => put::skip(false, true, over),
    }
}

pub(crate) fn operator_parts(o: Operator) -> Parts
    ensures { parts_meant result ≡ parts_of (spec.operator o) }
{
    match o {
        Operator::Joins(j) => join_parts(j),
        Operator::Compares(c) => put::plain(operations::COMPARE, c.number(), 0),
    }
}
