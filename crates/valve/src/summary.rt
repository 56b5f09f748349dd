// What a text names: the refusals of a check, or its summary.
ghost use Rattle.std.specs.Prelude.{List, ℕ, Ok};
ghost use Rattle.paper.specs.Promised.{SummarizePromised};
ghost use Rattle.reading.specs.Restricted.{Rooted};

use crate::passed;
use paper::{Refusal, Summary};

// By the tree at node `root`, of a text that passed.
fn summary_of(nodes: &[u32], root: usize) -> Summary
    requires { (text : List ℕ) × ((list : List ℕ) × Rooted text list nodes.now root) }
    ensures { (text list : List ℕ) → Rooted text list nodes.now root → SummarizePromised text list (Ok result) }
{
    summarizing::summary_at(nodes, root)
}

// The set of the keys that the text names, and whether it names ::priority.
pub fn summarize(text: &[u8], list: &[u8]) -> Result<Summary, Refusal>
    ensures { SummarizePromised text.now list.now result }
{
    passed::with_root(text, list, |nodes, root| summary_of(nodes, root))
}
