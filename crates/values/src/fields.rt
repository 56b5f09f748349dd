// Fields of a key, and the names after "::".
// Fields and kinds are bytes and no enums: `field_type` takes any, and reads one past the last as the last.
ghost use Rattle.std.specs.Prelude.{◌≡◌};
ghost use Rattle.paper.specs.Tokens.{bytes, same_bytes};
ghost use Rattle.paper.specs.Keys.{kind_of};
ghost use Rattle.paper.specs.Code.{field_of};
ghost use Rattle.paper.specs.Types as paper;
ghost use Rattle.paper.specs.Types.{when, field_ty, field_named};
ghost use Rattle.values.specs.Typed.{ty_meant, typing_meant, named_of};

use crate::types::Type;
use paper::{fields, kinds};
use spelling::bytes::same_bytes;

fn has(kind: u8, field: u8) -> bool
    ensures { result ≡ paper.has (kind_of kind) (field_of field) }
{
    match field {
        fields::VALUE => kind != kinds::RANGE,
        fields::MASK => kind == kinds::TERNARY || kinds::RANGE < kind,
        fields::PREFIX_LENGTH => kind == kinds::LPM,
        _ => kind == kinds::RANGE,
    }
}

fn type_in(width: u8, field: u8) -> Type
    ensures { ty_meant result ≡ field_ty width (field_of field) }
{
    if field == fields::PREFIX_LENGTH {
        Type::Int
    } else {
        Type::Of(kinds::EXACT, width)
    }
}

// The type of a field of a key by its kind and width, where the kind has the field.
pub fn field_type(kind: u8, width: u8, field: u8) -> Option<Type>
    ensures { typing_meant result ≡ when (paper.has (kind_of kind) (field_of field)) (field_ty width (field_of field)) }
{
    has(kind, field).then_some(type_in(width, field))
}

// The field that a word names, by its number in document 01.
pub fn field_named(word: &[u8]) -> Option<u8>
    ensures { result ≡ named_of (field_named word.now) }
{
    if same_bytes(word, b"value") {
        Some(fields::VALUE)
    } else if same_bytes(word, b"mask") {
        Some(fields::MASK)
    } else if same_bytes(word, b"prefix_length") {
        Some(fields::PREFIX_LENGTH)
    } else if same_bytes(word, b"low") {
        Some(fields::LOW)
    } else if same_bytes(word, b"high") {
        Some(fields::HIGH)
    } else {
        None
    }
}

// Whether a word names the attribute "priority", the only one there is.
pub fn is_priority(word: &[u8]) -> bool
    ensures { result ≡ same_bytes word.now (bytes "priority") }
{
    same_bytes(word, b"priority")
}
