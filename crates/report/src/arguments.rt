// A count of the files that arguments name.
ghost use Rattle.std.specs.Prelude.{List, ℕ};
ghost use Rattle.reading.specs.Parted.{PassedParts};

use crate::course::Parted;
use crate::progress;
use crate::tell::{say_counting, say_refusal};
use crate::turns::count_turns;
use files::{
    File, MOST_PATH, TOO_LONG, argument, cannot_read, not_at_end, open_read, read_argument,
    whole_entries,
};
use std::env::Env;
use std::io;
use std::rt::Files;

// Numbers are told only of a file that was read to its end, or of one with too many entries.
fn count_file(
    rt: &(impl Files + Print + Eprint),
    watched: bool,
    parted: Parted,
    path: &[u8],
) -> io::Result<()>
    requires { (text : List ℕ) × PassedParts text parted.list.now parted.nodes.now parted.rows.now parted.n }
{
    let mut file = match open_read(rt, path) {
        Ok(file) => file,
        Err(reason) => return cannot_read(rt, path, reason),
    };
    let want = whole_entries(keys::entry_size(parted.list));
    let mut buffer = [0u8; 65536];
    let mut counts = [0u64; parts::MOST_PARTS];
    let counted = count_turns(
        rt,
        watched,
        parted,
        &mut file,
        &mut buffer[..want],
        &mut counts,
    );
    progress::clear(rt, watched);
    if let Ok(_) = counted {
        if let Some(reason) = not_at_end(&mut file) {
            return cannot_read(rt, path, reason);
        }
    }
    say_counting(rt, counted, &counts)
}

fn count_argument(
    rt: &(impl Files + Env + Print + Eprint),
    watched: bool,
    parted: Parted,
    entries: usize,
) -> io::Result<()>
    requires { (text : List ℕ) × PassedParts text parted.list.now parted.nodes.now parted.rows.now parted.n }
{
    let mut path = [0u8; MOST_PATH];
    match argument(rt, entries, &mut path) {
        Ok(m) => count_file(rt, watched, parted, &path[..m]),
        Err(reason) => cannot_read(rt, TOO_LONG, reason),
    }
}

// By a text and a list, the first bytes of files.
fn count_by(
    rt: &(impl Files + Env + Print + Eprint),
    watched: bool,
    text_file: File,
    list_file: File,
    entries: usize,
) -> io::Result<()> {
    let list = list_file.bytes;
    let mut nodes = [0u32; reading::NODE_WORDS];
    let mut rows = [0u32; reading::PART_WORDS];
    match reading::restrict_parts(text_file.bytes, list, &mut nodes, &mut rows) {
        Err(refusal) => say_refusal(rt, refusal, text_file, list_file),
        Ok(n) => {
            let parted = Parted {
                list,
                nodes: &nodes,
                rows: &rows,
                n,
            };
            count_argument(rt, watched, parted, entries)
        }
    }
}

// Counts the entries of a file by a text and a key list, each a file that an argument of this number names. A room has one byte more than a
// text or a list may have, so that what is too long is seen to be. How far the count has come is shown where somebody watches.
pub fn count_files(
    rt: &(impl Files + Env + Print + Eprint),
    watched: bool,
    text: usize,
    keys: usize,
    entries: usize,
) -> io::Result<()> {
    let mut text_room = [0u8; 4097];
    let Some(text) = read_argument(rt, text, &mut text_room)? else {
        return Ok(());
    };
    let mut list_room = [0u8; 2561];
    let Some(list) = read_argument(rt, keys, &mut list_room)? else {
        return Ok(());
    };
    count_by(rt, watched, text, list, entries)
}
