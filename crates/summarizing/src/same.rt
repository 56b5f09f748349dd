// Whether two entries are the same in all that a text names.
ghost use Rattle.std.specs.Prelude.{◌≡◌, Bool, ◌&&◌, ℕ, length};
ghost use Rattle.paper.specs.Named.{set_of};
ghost use Rattle.paper.specs.Rechecking.{same_from, same_priority};
ghost use Rattle.keys.specs.Says.{keys_in};
ghost use Rattle.operands.specs.Conforming.{Conforming};
ghost use Rattle.summarizing.specs.Sums.{Sums};

use keys::{Entry, KeyRecord};
use paper::Summary;

// Whether the records of the keys in a set have the same bytes in two entries. The lowest bit that is left is that of the next key.
fn same_records(list: &[u8], old: &[u8], new: &[u8], named: u32) -> bool
    requires conforming { Conforming list.now old.now }
    requires conforming_2 { Conforming list.now new.now }
    ensures { (p : ℕ → Bool) → named ≡ set_of p → result ≡ same_from p old.now new.now 0 (length (keys_in list.now)) }
{
    let n = list.len() / KeyRecord::SIZE;
    let mut rest = named;
    for k in 0..n {
        if rest % 2 == 1 && !keys::same_record(old, new, k) {
            return false;
        }
        rest /= 2;
    }
    true
}

// Whether no named record differs between two entries that conform and, if marked, the priority is the same.
pub fn same_named(list: &[u8], old: &[u8], new: &[u8], summary: Summary) -> bool
    requires conforming { Conforming list.now old.now }
    requires conforming_2 { Conforming list.now new.now }
    ensures { (p : ℕ → Bool) (m : Bool) → Sums p m summary
        → result ≡ (same_from p old.now new.now 0 (length (keys_in list.now)) && same_priority m old.now new.now) }
{
    same_records(list, old, new, summary.keys)
        && (!summary.priority || Entry::read(old).priority == Entry::read(new).priority)
}
