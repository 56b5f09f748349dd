// What is shown.
ghost use Rattle.std.specs.Prelude.{◌≡◌, List, ℕ, ◌+◌, ◌*◌, ◌≤◌, ◌<◌, length};
ghost use Rattle.std.proofs.Math.Option.{some};
ghost use Rattle.paper.specs.Answers.{ok, offset_of, refused_by};
ghost use Rattle.paper.specs.Numbers.{byte_at};
ghost use Rattle.paper.specs.Keys.{records_in, record_at};
ghost use Rattle.paper.specs.Entry.{head_size};
ghost use Rattle.paper.specs.Parts.{most_parts};
ghost use Rattle.paper.specs.Explained.{at_key, key_index, name_stretch, reason_for, explanation_says};
ghost use Rattle.operands.specs.Conforming.{Conforming};
ghost use Rattle.parts.specs.Rows.{Has, root_at, part_at};
ghost use Rattle.reading.specs.Parted.{Parted};
ghost use Rattle.explaining.specs.FirstFalse.{first_in};
ghost use Rattle.explaining.specs.KeyShown.{HasKey, Listed};

use crate::first;
use keys::{Entry, KeyRecord, Matched};
use paper::{Explanation, Place, Refusal, Verdict, refused};
use parts::rows as part_rows;

// A part, by its index from 0: its number, its root's place, and its stretch.
fn part(nodes: &[u32], rows: &[u32], k: usize) -> Explanation
    requires has { Has rows.now k × (k < most_parts) }
    requires k_in_bounds { root_at rows.now k * 8 + 8 ≤ length nodes.now }
    ensures { (text list : List ℕ) → explanation_says result ≡ reason_for list (ok (some (part_at text nodes.now rows.now k))) }
{
    let root = part_rows::root_at(rows, k);
    let place = trees::place_at(nodes, root);
    let start = part_rows::start_at(rows, k);
    let end = part_rows::end_at(rows, k);
    Explanation::Part(k + 1, place, start, end)
}

// For an entry that conforms: the first of n parts that is false on it, or nothing.
pub fn of_entry(list: &[u8], entry: &[u8], nodes: &[u32], rows: &[u32], n: usize) -> Explanation
    requires conforming { Conforming list.now entry.now }
    requires by_index { (text : List ℕ) × Parted text list.now nodes.now rows.now n }
    ensures { (text : List ℕ) → Parted text list.now nodes.now rows.now n
        → explanation_says result ≡ reason_for list.now (ok (first_in text list.now entry.now nodes.now rows.now n)) }
{
    match first::first_false(list, entry, nodes, rows, n) {
        Some(k) => part(nodes, rows, k),
        None => Explanation::Nothing(Ok(Verdict::Accepted)),
    }
}

// The crate `wording` has the same. No crate below both is about places but `paper`, in which nothing computes.
fn offset(place: Place) -> usize
    ensures { result ≡ offset_of place }
{
    match place {
        Place::Text(at)
        | Place::List(at)
        | Place::Entry(at)
        | Place::Blocks(at)
        | Place::Buffer(at)
        | Place::Contract(at)
        | Place::Table(at) => at,
    }
}

// The length of the name of key k of a list: the first byte of its record.
fn name_size(list: &[u8], k: usize) -> usize
    requires { k < records_in list.now }
    ensures { result ≡ byte_at (record_at list.now k) 0 }
{
    usize::from(list[k * KeyRecord::SIZE])
}

// The key whose record stands at a place of the entry: that place, and where the name stands in the list.
fn key(list: &[u8], at: usize) -> Explanation
    requires { (head_size ≤ at) × HasKey list.now (key_index at) }
    ensures { explanation_says result ≡ at_key at (key_index at) (name_stretch list.now (key_index at)) }
{
    let k = (at - Entry::HEAD) / Matched::SIZE;
    let from = k * KeyRecord::SIZE + KeyRecord::NAME;
    let size = name_size(list, k);
    Explanation::Key(at, from, from + size)
}

// For a refusal: the key, if an entry is refused at the record of one; else nothing.
pub fn of_refusal(list: &[u8], refusal: Refusal) -> Explanation
    requires { Listed list.now refusal.number (offset_of refusal.place) }
    ensures { explanation_says result ≡ reason_for list.now (refused_by refusal) }
{
    if refusal.number != refused::ENTRY_RULE {
        return Explanation::Nothing(Err(refusal));
    }
    let at = offset(refusal.place);
    if at < Entry::HEAD {
        return Explanation::Nothing(Err(refusal));
    }
    key(list, at)
}
