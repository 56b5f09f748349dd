// What we advertise, as contracts, so that whatever is lost fails the gate. Functions that do nothing state theorems about the definitions
// of `paper`, and the examples and wrong programs of `tried`; those of `calls`, and the last two of `pieces`, state the demands of what the real
// calls of `valve` answer.
#![tactic(auto)]

mod accounts;
mod bases;
mod bits;
mod calls;
mod comparisons;
mod contracts;
mod counts;
mod damage;
mod demands;
mod dependence;
mod numbers;
mod octal;
mod pieces;
mod prints;
mod readings;
mod required;
mod rules;
mod running;
mod summaries;
mod tables;
mod text_parts;
mod translations;
