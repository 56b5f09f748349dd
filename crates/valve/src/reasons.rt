// What broke for an entry.
ghost use Rattle.std.specs.Prelude.{List, ℕ};
ghost use Rattle.paper.specs.Promised.{ExplainPromised};
ghost use Rattle.reading.specs.Parted.{PassedParts};

use crate::passed;
use paper::Explanation;

// By the parts of a text that passed: 19; 20; and the first that is false on the entry.
fn reason_by(list: &[u8], entry: &[u8], nodes: &[u32], rows: &[u32], n: usize) -> Explanation
    requires { (text : List ℕ) × PassedParts text list.now nodes.now rows.now n }
    ensures { (text : List ℕ) → PassedParts text list.now nodes.now rows.now n
        → ExplainPromised text list.now entry.now result }
{
    match keys::check_entry(list, entry) {
        Ok(()) => explaining::of_entry(list, entry, nodes, rows, n),
        Err(refusal) => explaining::of_refusal(list, refusal),
    }
}

// What broke: the first part of the text that is false on the entry, or the key whose record is refused.
pub fn reason(text: &[u8], list: &[u8], entry: &[u8]) -> Explanation
    ensures { ExplainPromised text.now list.now entry.now result }
{
    let found = passed::with_parts(text, list, |nodes, rows, n| {
        reason_by(list, entry, nodes, rows, n)
    });
    match found {
        Ok(why) => why,
        Err(refusal) => explaining::of_refusal(list, refusal),
    }
}
