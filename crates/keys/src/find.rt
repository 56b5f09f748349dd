// The key of a name.
ghost use Rattle.std.specs.Prelude.{◌≡◌, ◌≤◌, ◌/◌, length};
ghost use Rattle.paper.specs.Keys.{record_size, keys_from, find};
ghost use Rattle.paper.specs.Tokens.{same_bytes};
ghost use Rattle.keys.specs.Says.{found, keys_in};

use crate::record;
use crate::record::KeyRecord;
use spelling::bytes;

// Whether a name is a word. The names of a list are often of one length and begin alike, so the
// last byte is looked at first: most of them are told apart without a comparison of all.
fn is_named(name: &[u8], word: &[u8]) -> bool
    ensures { result ≡ same_bytes name.now word.now }
{
    let size = word.len();
    if 0 < size && size == name.len() && name[size - 1] != word[size - 1] {
        return false;
    }
    bytes::same_bytes(name, word)
}

// The first of the first n keys that has a name.
pub(crate) fn find_among(list: &[u8], n: usize, word: &[u8]) -> Option<usize>
    requires { n ≤ length list.now / record_size }
    ensures { found result ≡ find (keys_from list.now 0 n) word.now }
{
    for k in 0..n {
        if is_named(record::name_of(record::record_at(list, k)), word) {
            return Some(k);
        }
    }
    None
}

// The first key of a list that has a name.
pub fn find_key(list: &[u8], word: &[u8]) -> Option<usize>
    ensures { found result ≡ find (keys_in list.now) word.now }
{
    find_among(list, list.len() / KeyRecord::SIZE, word)
}
