// What the program `pollux` tells people, in words: why an input is refused, the line of a text with a caret under the place, a number that loses
// bits with its width and range, what broke for an entry, what a text names, what is wrong with a contract, and which octal numerals were
// changed.
//
// These only write, to standard output, and open no file: they are lent the bytes that an answer is of. Each ends the line that it begins, but for
// the forms of `say` and the number of changed numerals, whose line the caller goes on with.
#![tactic(auto)]

mod bits;
pub mod broken;
pub mod caret;
pub mod contracts;
pub mod named;
pub mod octal;
pub mod reasons;
pub mod refusals;
pub mod say;
