// The type that each operator gives.
// Comparisons and kinds are bytes and no enums: `compare_type` and `convert_type` take any, and read one past the last as the last.
ghost use Rattle.std.specs.Prelude.{◌≡◌};
ghost use Rattle.paper.specs.Keys.{kind_of};
ghost use Rattle.paper.specs.Code.{comparison_of};
ghost use Rattle.paper.specs.Types as paper;
ghost use Rattle.paper.specs.Types.{of, when, takes, is_number, not_type, negate_type, join_type, compare_type, comparison_type};
ghost use Rattle.values.specs.Typed.{ty_meant, typing_meant};

use crate::types;
use crate::types::Type;
use paper::{comparisons, kinds};

// The type that "!" gives, where it takes its operand.
pub fn not_type(a: Type) -> Option<Type>
    ensures { typing_meant result ≡ not_type (ty_meant a) }
{
    types::is_bool(a).then_some(Type::Bool)
}

// The type that "-" gives, where it takes its operand.
pub fn negate_type(a: Type) -> Option<Type>
    ensures { typing_meant result ≡ negate_type (ty_meant a) }
{
    is_number(a).then_some(a)
}

// The type that a join gives, where it takes its operands.
pub fn join_type(a: Type, b: Type) -> Option<Type>
    ensures { typing_meant result ≡ join_type (ty_meant a) (ty_meant b) }
{
    (types::is_bool(a) && types::is_bool(b)).then_some(Type::Bool)
}

// The type that a conversion to a kind and a width gives, where it takes its operand.
pub fn convert_type(kind: u8, width: u8, a: Type) -> Option<Type>
    ensures { typing_meant result ≡ when (takes (of (kind_of kind) width) (ty_meant a)) (of (kind_of kind) width) }
{
    let to = Type::Of(kind, width);
    types::takes(to, a).then_some(to)
}

fn is_number(a: Type) -> bool
    ensures { result ≡ is_number (ty_meant a) }
{
    matches!(a, Type::Int | Type::Of(kinds::EXACT, _))
}

// Whether a comparison takes two operands of this type.
fn suits(comparison: u8, a: Type) -> bool
    ensures { result ≡ paper.suits (comparison_of comparison) (ty_meant a) }
{
    matches!(comparison, comparisons::EQUAL | comparisons::UNEQUAL) || is_number(a)
}

// The type that a comparison gives of two operands of one type, where it takes them.
pub fn compare_type(comparison: u8, a: Type, b: Type) -> Option<Type>
    ensures { typing_meant result ≡ compare_type (comparison_of comparison) (ty_meant a) (ty_meant b) }
{
    (types::same(a, b) && suits(comparison, a)).then_some(Type::Bool)
}

// The type that a comparison gives of two operands that meet in one type, where it takes them.
pub fn comparison_type(comparison: u8, a: Type, b: Type) -> Option<Type>
    ensures { typing_meant result ≡ comparison_type (comparison_of comparison) (ty_meant a) (ty_meant b) }
{
    let met = types::meet(a, b)?;
    compare_type(comparison, met, met)
}
