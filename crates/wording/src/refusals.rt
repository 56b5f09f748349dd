// Refusals in words.
use crate::reasons::say_reason;
use crate::{bits, caret};
use files::File;
use keys::{Entry, Matched};
use lines::say;
use paper::refused::{BITS_LOST, ENTRY_RULE};
use paper::{Place, Refusal};
use std::io;

fn offset(place: Place) -> usize {
    match place {
        Place::Text(at)
        | Place::List(at)
        | Place::Entry(at)
        | Place::Blocks(at)
        | Place::Buffer(at)
        | Place::Contract(at)
        | Place::Table(at) => at,
    }
}

// By the word for an input, the file that it stands in, and the offset in the bytes that are held of it.
fn say_refused(rt: &impl Print, input: &str, number: u8, at: usize, file: File) -> io::Result<()> {
    let place = file.true_offset(at);
    print!(rt; "refused {number}: {input}, byte {place}: ")?;
    say_reason(rt, number, place == file.size)
}

// Why a text is refused. A number that loses bits is told with its width.
fn say_of_text(
    rt: &impl Print,
    number: u8,
    at: usize,
    text: &[u8],
    list: &[u8],
    at_end: bool,
) -> io::Result<()> {
    if number == BITS_LOST && bits::say_lost(rt, text, list, at)? {
        return Ok(());
    }
    say_reason(rt, number, at_end)
}

// Refused before any entry is judged, so in the text, the key list or the blocks, or for the length of a print: the buffer has room for
// the blocks of every text. `rule` is the text or the blocks.
pub fn refused(rt: &impl Print, refusal: Refusal, rule: File, list: File) -> io::Result<()> {
    let number = refusal.number;
    let at = offset(refusal.place);
    match refusal.place {
        Place::Text(_) => {
            let place = rule.true_offset(at);
            print!(rt; "refused {number}: text, byte {place}: ")?;
            say_of_text(rt, number, at, rule.bytes, list.bytes, place == rule.size)?;
            caret::show(rt, rule.bytes, at, at)
        }
        Place::List(_) => say_refused(rt, "key list", number, at, list),
        Place::Buffer(_) => {
            print!(rt; "refused {number}: print, byte {at}: ")?;
            say_reason(rt, number, true)
        }
        _ => say_refused(rt, "blocks", number, at, rule),
    }
}

// What is wrong with an entry.
fn say_of_entry(rt: &impl Print, number: u8, at: usize) -> io::Result<()> {
    if number == ENTRY_RULE && Entry::HEAD <= at {
        let key = (at - Entry::HEAD) / Matched::SIZE + 1;
        return println!(rt; "the record of key {key} breaks its rule");
    }
    say_reason(rt, number, false)
}

// Entry n is refused, and how that was come by, if it is told.
pub(crate) fn entry_refused(
    rt: &impl Print,
    n: usize,
    how: &[u8],
    refusal: Refusal,
) -> io::Result<()> {
    let number = refusal.number;
    let at = offset(refusal.place);
    print!(rt; "refused entry {n}")?;
    say(rt, how)?;
    print!(rt; ": {number} at byte {at}: ")?;
    say_of_entry(rt, number, at)
}
