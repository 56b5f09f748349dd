// An entry against a text.
ghost use Rattle.std.specs.Prelude.{◌≡◌, List, ℕ, ◌+◌, ◌*◌, ◌≤◌, length};
ghost use Rattle.paper.specs.Answers.{ok, judgement_says};
ghost use Rattle.paper.specs.Promised.{JudgePromised};
ghost use Rattle.operands.specs.Conforming.{Conforming};
ghost use Rattle.reading.specs.Restricted.{Rooted};

use crate::passed;
use paper::{Judgement, Verdict};

pub(crate) fn verdict(accepted: bool) -> Judgement
    ensures { judgement_says result ≡ ok accepted }
{
    Ok(if accepted {
        Verdict::Accepted
    } else {
        Verdict::Violated
    })
}

// By the tree at node `root`, of a text that passed, what it is worth on an entry that conforms.
pub(crate) fn judge_entered(list: &[u8], entry: &[u8], nodes: &[u32], root: usize) -> Judgement
    requires root_in_bounds { root * 8 + 8 ≤ length nodes.now }
    requires conforming { Conforming list.now entry.now }
    ensures { (text : List ℕ) → Rooted text list.now nodes.now root → JudgePromised text list.now entry.now result }
{
    verdict(judging::holds(list, entry, nodes, root))
}

// The same of any entry: 19; 20; and what the tree is worth on it.
fn judge_by(list: &[u8], entry: &[u8], nodes: &[u32], root: usize) -> Judgement
    requires root_in_bounds { root * 8 + 8 ≤ length nodes.now }
    requires by_index { (text : List ℕ) × Rooted text list.now nodes.now root }
    ensures { (text : List ℕ) → Rooted text list.now nodes.now root → JudgePromised text list.now entry.now result }
{
    keys::check_entry(list, entry)?;
    judge_entered(list, entry, nodes, root)
}

// What the text says of an entry.
pub fn judge(text: &[u8], list: &[u8], entry: &[u8]) -> Judgement
    ensures { JudgePromised text.now list.now entry.now result }
{
    passed::with_root(text, list, |nodes, root| {
        judge_by(list, entry, nodes, root)
    })?
}
