// The check of a whole entry.
ghost use Rattle.std.specs.Prelude.{◌≡◌};
ghost use Rattle.paper.specs.Answers.{says};
ghost use Rattle.keys.specs.Says.{keys_in, conforms};

use crate::entry::{Entry, Matched};
use crate::record::KeyRecord;
use crate::{entry, rules};
use paper::{Place, Refusal, refused};

// Whether an entry conforms to a good key list, or its refusal, 19 or 20.
pub fn check_entry(list: &[u8], entry: &[u8]) -> Result<(), Refusal>
    ensures { says result ≡ conforms (keys_in list.now) entry.now }
{
    let n = list.len() / KeyRecord::SIZE;
    let size = entry.len();
    if size != Entry::HEAD + Matched::SIZE * n {
        return Err(Refusal {
            number: refused::ENTRY_LENGTH,
            place: Place::Entry(size),
        });
    }
    if Entry::HIGHEST < Entry::read(entry).priority {
        return Err(Refusal {
            number: refused::ENTRY_RULE,
            place: Place::Entry(0),
        });
    }
    for k in 0..n {
        if !rules::match_ok(KeyRecord::read(list, k), entry::match_at(entry, k)) {
            return Err(Refusal {
                number: refused::ENTRY_RULE,
                place: Place::Entry(Entry::HEAD + k * Matched::SIZE),
            });
        }
    }
    Ok(())
}
