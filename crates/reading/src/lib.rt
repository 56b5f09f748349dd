// A text made into a typed tree: the stages that the calls on texts have in common.
//
// `read_tree` cuts a text of at most 4,096 bytes into tokens and these into a tree, or gives the first refusal from 5 to 10 that document 01
// gives the text. The tokens stand on a tape of its own. The tree stands in `nodes`; the definition `tree_at` (crate trees) says which it is,
// and it is the one that the definition `tree` reads.
//
// `restrict` takes a key list too. It gives the first refusal that document 01 gives the two (1; 2; 3 and 4; 5 to 10; 11 to 14), or
// how many nodes stand before the root, which is its number. What it promises is the definition `restriction`. The names of the tree that
// it leaves in `nodes` are resolved: each has its mark, for the walks that judge and translate it.
//
// `restrict_parts` gives the same refusals, or how many parts the text has. They are found while the tokens still stand on the tape, and
// stored in rows (crate parts); the trees at their roots can be judged one by one. A reader that is lent no rows looks for no parts.
#![tactic(auto)]

ghost use Rattle.std.specs.Prelude.{◌*◌, ◌≤◌, length};
ghost use Rattle.paper.specs.Tokens.{most_text, most_tokens};
ghost use Rattle.parts.specs.Found.{Taped, Noded, Finds};
ghost use Rattle.reading.specs.Grown.{Room, ShortRoom, RoomFor, Enough, TapeFits, CutOn, CutFits, CountedOn, Told, Settled, Settles, of_tree, Grows, RowRoom, Sows};
ghost use Rattle.reading.specs.Restricted.{Types, Restricts};
ghost use Rattle.reading.specs.Parted.{Readies, RestrictsParts};
ghost use Rattle.reading.specs.Tried.{TriesTree, Tries, TriesParts};

use crate::grown::{Grown, Scratch, settled};
use paper::{Place, Refusal, refused};
use tokens::rows::Row;
use tokens::{MOST_TOKENS, Stop};
use trees::Node;

mod grown;

// No text is longer: document 01's refusal 1, which is given before a text comes here.
pub const MOST_TEXT: usize = 4096;

// A tree has at most one node for each token.
pub const MOST_NODES: usize = MOST_TOKENS;

// The words of a text's nodes.
pub const NODE_WORDS: usize = Node::WORDS * MOST_NODES;

// A text of at most so many bytes is brief, a comparison or two. Where little is done with a text, clearing scratch is most of it.
pub const BRIEF_TEXT: usize = 64;

// The words of its nodes.
pub const BRIEF_NODE_WORDS: usize = Node::WORDS * BRIEF_TEXT;

// A text of at most so many bytes is short. It has no more tokens than bytes, so that small scratch is enough for it.
pub const SHORT_TEXT: usize = 256;

// A text of at most so many bytes, six for each token that there is then room for, is tried with small scratch. One that turns out to have more
// tokens is cut twice.
pub const TRIED_TEXT: usize = 6 * SHORT_TEXT;

// The words of its nodes.
pub const SHORT_NODE_WORDS: usize = Node::WORDS * SHORT_TEXT;

// The words of a tape for the tokens of a brief text, of a short one, and of any.
const BRIEF_TAPE: usize = Row::WORDS * BRIEF_TEXT;

const SHORT_TAPE: usize = Row::WORDS * SHORT_TEXT;

const LONG_TAPE: usize = Row::WORDS * MOST_TOKENS;

// The words of the rows of a text's parts.
pub const PART_WORDS: usize = parts::PART_WORDS;

// How many parts a text has, each of which is stored in a row. Where the rows have no room for them, none is looked for.
fn find_parts(tape: &[u32], count: usize, nodes: &[u32], root: usize, rows: &mut [u32]) -> usize
    requires taped { Taped tape.now count }
    requires noded { Noded nodes.now root }
    ensures { RowRoom rows.new → Finds tape.now count nodes.now root rows.new result }
{
    if rows.len() < PART_WORDS {
        return 0;
    }
    parts::find(tape, count, nodes, root, rows)
}

// The number of nodes, of which the last is the root, and the parts; or a refusal. Of tokens that are counted.
fn plant(
    text: &[u8],
    tape: &[u32],
    count: usize,
    nodes: &mut [u32],
    rows: &mut [u32],
) -> Result<Grown, Stop>
    requires counted_on { CountedOn text.now tape.now count }
    requires count_in_bounds { count * 8 ≤ length nodes.old }
    ensures settled { Settled result × Told (Grows text.now nodes.new) (of_tree result) }
    ensures sows { Sows text.now nodes.new rows.new result }
{
    let size = grammar::parse(text, tape, count, nodes)?;
    let found = find_parts(tape, count, nodes, size - 1, rows);
    Ok(Grown {
        tree: size,
        parts: found,
    })
}

// The same of what was cut from the text, which stands on a tape that is lent.
fn grow(
    text: &[u8],
    tape: &[u32],
    tokenized: Result<usize, Stop>,
    nodes: &mut [u32],
    rows: &mut [u32],
) -> Result<Grown, Stop>
    requires cut_on { CutOn text.now tape.now tokenized }
    requires cut_fits { CutFits nodes.old tokenized }
    ensures settled { (Room text.now tape.now → Settled result) × Told (Grows text.now nodes.new) (of_tree result) }
    ensures sows { Sows text.now nodes.new rows.new result }
{
    let count = tokenized?;
    plant(text, tape, count, nodes, rows)
}

// Cuts the text, on a tape of so many words. The function stays out of its callers, so that no walk over the tree has a tape under it.
#[inline(never)]
fn read_on<const WORDS: usize>(
    text: &[u8],
    nodes: &mut [u32],
    rows: &mut [u32],
) -> Result<Grown, Stop>
    requires text_len_bound { length text.now ≤ most_text }
    requires few_words { WORDS ≤ most_tokens * 8 }
    requires tape_fits { TapeFits WORDS text.now nodes.old }
    ensures settled { (Enough text.now WORDS → Settled result) × Told (Grows text.now nodes.new) (of_tree result) }
    ensures sows { Sows text.now nodes.new rows.new result }
{
    let mut tape = [0u32; WORDS];
    let tokenized = tokens::tokenize(text, &mut tape);
    grow(text, &tape, tokenized, nodes, rows)
}

fn read_parts(
    text: &[u8],
    scratch: Scratch,
    nodes: &mut [u32],
    rows: &mut [u32],
) -> Result<Grown, Stop>
    requires text_len_bound { length text.now ≤ most_text }
    requires room_for { RoomFor scratch text.now nodes.old }
    ensures settles { Settles scratch result × Told (Grows text.now nodes.new) (of_tree result) }
    ensures sows { Sows text.now nodes.new rows.new result }
{
    if text.len() <= BRIEF_TEXT {
        return read_on::<BRIEF_TAPE>(text, nodes, rows);
    }
    match scratch {
        Scratch::Short => read_on::<SHORT_TAPE>(text, nodes, rows),
        Scratch::Long => read_on::<LONG_TAPE>(text, nodes, rows),
    }
}

// Of a text that is not too long and a list that is good: 5 to 10; 11 to 14. Names are resolved in between. The tree's number is its root's.
fn typed_root(
    text: &[u8],
    list: &[u8],
    scratch: Scratch,
    nodes: &mut [u32],
    rows: &mut [u32],
) -> Result<Grown, Stop>
    requires text_len_bound { length text.now ≤ most_text }
    requires list_len_bound { length list.now ≤ 2560 }
    requires room_for { RoomFor scratch text.now nodes.old }
    ensures settles { Settles scratch result × Told (Types text.now list.now nodes.new) (of_tree result) }
    ensures readies { Readies text.now list.now nodes.new rows.new result }
{
    let grown = read_parts(text, scratch, nodes, rows)?;
    resolving::resolve(text, list, nodes, grown.tree);
    let root = grown.tree - 1;
    typing::check_types(list, nodes, root)?;
    Ok(Grown {
        tree: root,
        parts: grown.parts,
    })
}

// The root of a text that is good for the keys of a list, and its parts; or the first refusal of the two.
fn restrict_both(
    text: &[u8],
    list: &[u8],
    scratch: Scratch,
    nodes: &mut [u32],
    rows: &mut [u32],
) -> Result<Grown, Stop>
    requires { RoomFor scratch text.now nodes.old }
    ensures settles { Settles scratch result × Told (Restricts text.now list.now nodes.new) (of_tree result) }
    ensures readies { Readies text.now list.now nodes.new rows.new result }
{
    if MOST_TEXT < text.len() {
        return Err(Stop::Refused(Refusal {
            number: refused::TEXT_TOO_LONG,
            place: Place::Text(MOST_TEXT),
        }));
    }
    keys::check_list(list)?;
    typed_root(text, list, scratch, nodes, rows)
}

// The number of nodes, of which the last is the root; or a refusal.
pub fn read_tree(text: &[u8], nodes: &mut [u32]) -> Result<usize, Refusal>
    requires text_len_bound { length text.now ≤ most_text }
    requires room { Room text.now nodes.old }
    ensures { Grows text.now nodes.new result }
{
    let mut none = [0u32; 0];
    let grown = settled(read_parts(text, Scratch::Long, nodes, &mut none))?;
    Ok(grown.tree)
}

// The number of the root of a text that is good for the keys of a list, or the first refusal of the two.
pub fn restrict(text: &[u8], list: &[u8], nodes: &mut [u32]) -> Result<usize, Refusal>
    requires { Room text.now nodes.old }
    ensures { Restricts text.now list.now nodes.new result }
{
    let mut none = [0u32; 0];
    let restricted = settled(restrict_both(text, list, Scratch::Long, nodes, &mut none))?;
    Ok(restricted.tree)
}

// The number of parts of a text that is good for the keys of a list, each of which is stored in a row; or the first refusal of the two.
pub fn restrict_parts(
    text: &[u8],
    list: &[u8],
    nodes: &mut [u32],
    rows: &mut [u32],
) -> Result<usize, Refusal>
    requires room { Room text.now nodes.old }
    requires row_room { RowRoom rows.old }
    ensures { RestrictsParts text.now list.now nodes.new rows.new result }
{
    let restricted = settled(restrict_both(text, list, Scratch::Long, nodes, rows))?;
    Ok(restricted.parts)
}

// The same calls with nodes for a short text, whatever the text is: most texts have few tokens, and a call that needs no more room has less to
// clear.

// As `read_tree`, or over.
pub fn try_tree(text: &[u8], nodes: &mut [u32]) -> Result<usize, Stop>
    requires text_len_bound { length text.now ≤ most_text }
    requires short_room { ShortRoom nodes.old }
    ensures { TriesTree text.now nodes.new result }
{
    if TRIED_TEXT < text.len() {
        return Err(Stop::Over);
    }
    let mut none = [0u32; 0];
    let grown = read_parts(text, Scratch::Short, nodes, &mut none)?;
    Ok(grown.tree)
}

// As `restrict`, or over.
pub fn try_restrict(text: &[u8], list: &[u8], nodes: &mut [u32]) -> Result<usize, Stop>
    requires { ShortRoom nodes.old }
    ensures { Tries text.now list.now nodes.new result }
{
    if TRIED_TEXT < text.len() {
        return Err(Stop::Over);
    }
    let mut none = [0u32; 0];
    let restricted = restrict_both(text, list, Scratch::Short, nodes, &mut none)?;
    Ok(restricted.tree)
}

// As `restrict_parts`, or over.
pub fn try_parts(
    text: &[u8],
    list: &[u8],
    nodes: &mut [u32],
    rows: &mut [u32],
) -> Result<usize, Stop>
    requires short_room { ShortRoom nodes.old }
    requires row_room { RowRoom rows.old }
    ensures { TriesParts text.now list.now nodes.new rows.new result }
{
    if TRIED_TEXT < text.len() {
        return Err(Stop::Over);
    }
    let restricted = restrict_both(text, list, Scratch::Short, nodes, rows)?;
    Ok(restricted.parts)
}
