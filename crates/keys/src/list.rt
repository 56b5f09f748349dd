// The check of a whole key list, by what is asked of each record.
ghost use Rattle.std.specs.Prelude.{◌≡◌, length};
ghost use Rattle.paper.specs.Answers.{says};
ghost use Rattle.paper.specs.Keys.{record_size, RecordRule};
ghost use Rattle.paper.specs.Drafting.{name_rule};
ghost use Rattle.keys.specs.Says.{Askable, Asks, count_by, key_count, name_count};

use crate::record::KeyRecord;
use crate::{find, record};
use paper::{Place, Refusal, kinds, refused};

// The names of inputs: how many there may be, and the width of each key.
const MOST_INPUTS: usize = 16;

const INPUT_WIDTH: u8 = 64;

// Whether record k, which is lent, names an input: an exact key of an input's width, among the first ones.
fn input_ok(k: usize, key: &[u8]) -> bool
    requires { length key.now ≡ record_size }
    ensures { result ≡ name_rule k key.now }
{
    record::record_ok(key) && key[1] == kinds::EXACT && key[2] == INPUT_WIDTH && k < MOST_INPUTS
}

// How many keys a list holds, by what is asked of a record before its name is compared.
fn check_by<F: Fn(usize, &[u8]) -> bool>(keeps: F, list: &[u8]) -> Result<usize, Refusal>
    requires { Askable (F.pre keeps) }
    ensures { (rule : RecordRule) → Asks (F.post keeps) rule → says result ≡ count_by rule list.now }
{
    let size = list.len();
    if size % KeyRecord::SIZE != 0 || KeyRecord::MOST * KeyRecord::SIZE < size {
        return Err(Refusal {
            number: refused::LIST_LENGTH,
            place: Place::List(size),
        });
    }
    let n = size / KeyRecord::SIZE;
    for k in 0..n {
        let key = record::record_at(list, k);
        if !keeps(k, key) {
            return Err(Refusal {
                number: refused::KEY_LAYOUT,
                place: Place::List(k * KeyRecord::SIZE),
            });
        }
        if find::find_among(list, k, record::name_of(key)).is_some() {
            return Err(Refusal {
                number: refused::KEY_REPEATED,
                place: Place::List(k * KeyRecord::SIZE),
            });
        }
    }
    Ok(n)
}

// How many keys a list holds, or its refusal, 2, 3 or 4.
pub fn check_list(list: &[u8]) -> Result<usize, Refusal>
    ensures { says result ≡ key_count list.now }
{
    check_by(|_, key| record::record_ok(key), list)
}

// The same of a list that names the inputs of a contract.
pub fn check_names(list: &[u8]) -> Result<usize, Refusal>
    ensures { says result ≡ name_count list.now }
{
    check_by(input_ok, list)
}
