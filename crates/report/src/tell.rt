// The lines of a count.
use files::File;
use lines::{say, say_number, start};
use paper::refused::ENTRIES_MANY;
use paper::{Counted, Place, Refusal};
use std::io;

fn say_line(rt: &impl Print, word: &[u8], n: u64) -> io::Result<()> {
    say(rt, word)?;
    say_number(rt, n)?;
    say(rt, b"\n")
}

// Each part, counted from 1, and on how many entries it is false.
fn say_parts(rt: &impl Print, counts: &[u64]) -> io::Result<()> {
    for (k, n) in counts.iter().enumerate() {
        println!(rt; "part {} {n}", k + 1)?;
    }
    Ok(())
}

fn say_cut(rt: &impl Print, cut: usize) -> io::Result<()> {
    if cut == 0 {
        return Ok(());
    }
    println!(rt; "cut {cut}")
}

// What a file is counted as. Its own refusal is that of too many entries, which is told by its number alone.
pub(crate) fn say_counting(
    rt: &impl Print,
    counting: Result<Counted, Refusal>,
    counts: &[u64],
) -> io::Result<()> {
    match counting {
        Ok(counted) => {
            say_parts(rt, start(counts, counted.parts))?;
            say_line(rt, b"accepted ", counted.accepted)?;
            say_line(rt, b"violated ", counted.violated)?;
            say_line(rt, b"refused ", counted.refused)?;
            say_cut(rt, counted.cut)
        }
        Err(_) => say_line(rt, b"refusal ", ENTRIES_MANY as u64),
    }
}

// Where a text or a list is refused, in its file.
fn offset(place: Place, text: File, list: File) -> usize {
    match place {
        Place::List(at) => list.true_offset(at),
        Place::Text(at) => text.true_offset(at),
        _ => 0,
    }
}

// A text or a list is refused.
pub(crate) fn say_refusal(
    rt: &impl Print,
    refusal: Refusal,
    text: File,
    list: File,
) -> io::Result<()> {
    println!(rt;
        "refusal {} {}",
        refusal.number,
        offset(refusal.place, text, list)
    )
}
