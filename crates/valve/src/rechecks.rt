// A new entry beside an old one, of which the answer is known. One tree of the text is made for both, and each entry is checked once.
ghost use Rattle.std.specs.Prelude.{◌≡◌, List, ℕ, ◌+◌, ◌*◌, ◌≤◌, length};
ghost use Rattle.paper.specs.Promised.{RecheckPromised};
ghost use Rattle.operands.specs.Conforming.{Conforming};
ghost use Rattle.reading.specs.Restricted.{Rooted};
ghost use Rattle.valve.specs.Beside.{Compared, same_in};

use crate::{passed, verdict};
use paper::{Judgement, Rechecking};

// Whether the old entry conforms and the new one, which does, is the same in all that the tree at node `root` names.
fn same_by(list: &[u8], old: &[u8], new: &[u8], nodes: &[u32], root: usize) -> bool
    requires root_in_bounds { root * 8 + 8 ≤ length nodes.now }
    requires by_index { (text : List ℕ) × Rooted text list.now nodes.now root }
    requires conforming { Conforming list.now new.now }
    ensures { (text : List ℕ) → Rooted text list.now nodes.now root
        → result ≡ same_in text list.now old.now new.now }
{
    let Ok(()) = keys::check_entry(list, old) else {
        return false;
    };
    let summary = summarizing::summary_at(nodes, root);
    summarizing::same_named(list, old, new, summary)
}

// What the text says of the new entry, by its tree at node `root`; nothing where both conform and are the same in all that it names.
fn compare_by(list: &[u8], old: &[u8], new: &[u8], nodes: &[u32], root: usize) -> Option<Judgement>
    requires root_in_bounds { root * 8 + 8 ≤ length nodes.now }
    requires by_index { (text : List ℕ) × Rooted text list.now nodes.now root }
    ensures { (text : List ℕ) → Rooted text list.now nodes.now root
        → Compared text list.now old.now new.now result }
{
    match keys::check_entry(list, new) {
        Err(refusal) => Some(Err(refusal)),
        Ok(()) if same_by(list, old, new, nodes, root) => None,
        Ok(()) => Some(verdict::judge_entered(list, new, nodes, root)),
    }
}

// The same of a text; of one that is refused the refusal.
fn compare(text: &[u8], list: &[u8], old: &[u8], new: &[u8]) -> Option<Judgement>
    ensures { Compared text.now list.now old.now new.now result }
{
    let found = passed::with_root(text, list, |nodes, root| {
        compare_by(list, old, new, nodes, root)
    });
    match found {
        Ok(anew) => anew,
        Err(refusal) => Some(Err(refusal)),
    }
}

// The earlier answer, if it still holds for the new entry; else what the text says of that.
pub fn recheck(text: &[u8], list: &[u8], old: &[u8], earlier: Judgement, new: &[u8]) -> Rechecking
    ensures { RecheckPromised text.now list.now old.now earlier new.now result }
{
    match compare(text, list, old, new) {
        None => Rechecking::Reused(earlier),
        Some(judgement) => Rechecking::Judged(judgement),
    }
}
