// The definitions of `paper`, tried. The crate's specs/ holds the documents by example, and programs that are wrong; its proofs/ that each example
// holds, that each wrong program fails what the documents ask, and that there are such programs. Nothing here computes.

#![tactic(auto)]
