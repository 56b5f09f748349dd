// Types by number, so that one stands in a word with something else: 0 is bool. Every number is read as a type, so that nothing is asked
// of one that is read.
ghost use Rattle.std.specs.Prelude.{◌≡◌, ◌<◌};
ghost use Rattle.values.specs.Typed.{ty_meant};
ghost use Rattle.values.specs.Numbered.{numbers, ty_numbered};

use crate::types::Type;

// 0 is bool, 1 int,
const BOOL: u32 = 0;

const INT: u32 = 1;

// and from 2 on stand those of kinds, 256 for each kind, by their widths.
const FIRST_OF: u32 = 2;

const WIDTHS: u32 = 256;

const KINDS: u32 = 256;

// The number of a type.
pub fn number_of(a: Type) -> u32
    ensures { (ty_numbered result ≡ ty_meant a) × (result < numbers) }
{
    match a {
        Type::Bool => BOOL,
        Type::Int => INT,
        Type::Of(kind, width) => FIRST_OF + u32::from(kind) * WIDTHS + u32::from(width),
    }
}

// The type that a number is read as.
pub fn numbered(number: u32) -> Type
    ensures { ty_meant result ≡ ty_numbered number }
{
    if number == BOOL {
        return Type::Bool;
    }
    if number == INT {
        return Type::Int;
    }
    let of = number - FIRST_OF;
    Type::Of((of / WIDTHS % KINDS) as u8, (of % WIDTHS) as u8)
}
