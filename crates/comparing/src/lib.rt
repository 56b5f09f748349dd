// Blocks of another translator beside a text's parts: whether they are our translation of them, each used once, in some order.
//
// The codes of the parts are written into a scratch, each as it is joined to others. The blocks' code is read from its end, where it is never
// in doubt which part comes last: the first of the parts not yet used with which it ends is taken off, until one part is left, which must be all
// that is left of the code. Their code is compared where it lies. What this answers is the definition `fits` (paper, specs/Comparing).
//
// The cost: each of the rounds tries the parts not yet used, and a try stops at the first record that differs. Of 1,024 tokens k parts have at
// most 1,024 / k tokens each, so that all tries together compare at most some 2^17 records of 20 bytes.
#![tactic(auto)]

mod agreeing;
mod picking;
mod records;
mod scratch;

pub use agreeing::agrees;
pub use scratch::write_parts;
