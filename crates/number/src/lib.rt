// Numbers up to 2^128 - 1, held exactly; whole numbers, which are such a number with a sign; and literals, which are one with the base that
// it is written in.
//
// A Magnitude is four 32-bit limbs by value. Its operations are told by the number that the limbs stand for
// (`value`), and a Whole's by the whole number (`whole_of`), so no caller needs to look at a limb. All of them
// take every value: only those that read or write bytes ask that the bytes be there, and those that divide ask for a base.
#![tactic(auto)]

mod base;
mod bytes;
mod compare;
mod digits;
mod magnitude;
mod mask;
mod numeral;
mod whole;
mod width;

pub use base::{Base, Literal};
pub use bytes::word;
pub use magnitude::Magnitude;
pub use numeral::{Digits, MOST_LIMB_DIGITS, put_limb_digits};
pub use whole::Whole;
