// Types: which are the same, which one converts to which, and where two of them meet.
ghost use Rattle.std.specs.Prelude.{◌≡◌};
ghost use Rattle.paper.specs.Keys.{kind_of, kind_no};
ghost use Rattle.paper.specs.Types as paper;
ghost use Rattle.paper.specs.Types.{bool, same_ty};
ghost use Rattle.values.specs.Typed.{ty_meant, typing_meant};

use paper::kinds;

// A key's kind is its number in a key list and no enum: `bare_type` makes one of any byte. Any number over 4 is read as 4, optional.
#[derive(Clone, Copy)]
pub enum Type {
    Bool,
    Int,
    // Of a kind and a width. bit<W> is the type of the exact kind.
    Of(u8, u8),
}

// The number of the kind that a number is read as.
pub fn kind_number(kind: u8) -> u8
    ensures { result ≡ kind_no (kind_of kind) }
{
    kind.min(kinds::OPTIONAL)
}

// Whether a type is bool.
pub fn is_bool(a: Type) -> bool
    ensures { result ≡ same_ty (ty_meant a) bool }
{
    matches!(a, Type::Bool)
}

// Whether two types are equal in all fields. It is no derived `==`: kinds over 4 are one kind.
pub fn same(a: Type, b: Type) -> bool
    ensures { result ≡ same_ty (ty_meant a) (ty_meant b) }
{
    match (a, b) {
        (Type::Bool, Type::Bool) | (Type::Int, Type::Int) => true,
        (Type::Of(k, w), Type::Of(l, x)) => kind_number(k) == kind_number(l) && w == x,
        _ => false,
    }
}

// Whether a value of type b converts to type a.
pub(crate) fn takes(a: Type, b: Type) -> bool
    ensures { result ≡ paper.takes (ty_meant a) (ty_meant b) }
{
    match (a, b) {
        (Type::Of(_, _), Type::Int) => true,
        (Type::Of(kind, width), _) => kind != kinds::EXACT
            && same(b, Type::Of(kinds::EXACT, width)),
        _ => false,
    }
}

// The type in which two operands meet: their own, or that of the one to which the other is converted.
pub fn meet(a: Type, b: Type) -> Option<Type>
    ensures { typing_meant result ≡ paper.meet (ty_meant a) (ty_meant b) }
{
    if same(a, b) {
        return Some(a);
    }
    if takes(b, a) {
        return Some(b);
    }
    takes(a, b).then_some(a)
}
