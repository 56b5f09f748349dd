// The public calls. Each is thin: the stages of the documents, in their order, each asked of the crate below that answers for it.
//
// Every call keeps its promise (`paper`, specs/Promised) for all bytes, of any length and content: it answers what the definition of its
// name in the documents' words (specs/Calls, Explained and Pieces for what broke, Named and Rechecking for what a text names, Fixing for texts on file, Drafting for contracts, Comparing for blocks of another translator, Counting and RunAll for entries laid end to end) says, its count or verdict, or the refusal with its number and place. It asks nothing of its caller, keeps
// nothing from one call to the next, and reads nothing past the bytes it is lent. The scratch of a call lies in its own frame.
#![tactic(auto)]

mod account;
mod comparison;
mod counts;
mod loading;
mod octal;
mod pacts;
mod passed;
mod pieces;
mod reasons;
mod rechecks;
mod running;
mod style;
mod summary;
mod text;
mod verdict;
mod writing;

pub use comparison::compare;
pub use counts::count;
pub use loading::load;
pub use octal::fix_octal;
pub use pacts::pact;
pub use pieces::{Explained, explain, explained_list, explained_text, list_piece, text_piece};
pub use reasons::reason;
pub use rechecks::recheck;
pub use running::{run, run_all};
pub use style::print;
pub use summarizing::count_keys;
pub use summary::summarize;
pub use text::{check, read};
pub use verdict::judge;
pub use writing::translate;
