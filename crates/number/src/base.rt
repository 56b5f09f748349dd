// How a numeral is written: the base of its digits, which tokens and nodes keep beside its number.
ghost use Rattle.std.specs.Prelude.{◌≡◌, ◌≤◌};
ghost use Rattle.paper.specs.Tokens as paper;
ghost use Rattle.number.specs.Bases.{base_meant, of_radix, literal_meant};

use crate::magnitude::Magnitude;

#[derive(Clone, Copy)]
pub enum Base {
    Decimal,
    Binary,
    Hex,
}

// A number, and the base in which it is written.
#[derive(Clone, Copy)]
pub struct Literal {
    pub base: Base,
    pub number: Magnitude,
}

impl Base {
    // How many digits the base has. A word that holds a base holds this number. It is no From: callers are promised its bounds too.
    pub fn radix(self) -> u32
        ensures is { result ≡ paper.radix (base_meant self) }
        ensures two { 2 ≤ result }
        ensures few { result ≤ 16 }
    {
        match self {
            Base::Decimal => 10,
            Base::Binary => 2,
            Base::Hex => 16,
        }
    }

    // The base that has so many digits. Of any other number, decimal; so it is no From, which would lose nothing.
    pub fn of_radix(radix: u32) -> Base
        ensures { result ≡ of_radix radix }
    {
        match radix {
            2 => Base::Binary,
            16 => Base::Hex,
            _ => Base::Decimal,
        }
    }
}

impl Literal {
    // A number in decimal.
    pub fn plain(number: Magnitude) -> Literal
        ensures { (result.base ≡ Base.Decimal) × (result.number ≡ number) }
    {
        Literal {
            base: Base::Decimal,
            number,
        }
    }
}
