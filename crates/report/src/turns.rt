// A file, counted as much at a time as a part of a buffer holds.
ghost use Rattle.std.specs.Prelude.{◌≡◌, List, ℕ, ◌≤◌, length};
ghost use Rattle.paper.specs.Counting.{cut_in};
ghost use Rattle.keys.specs.Says.{keys_in};
ghost use Rattle.reading.specs.Parted.{PassedParts};
ghost use Rattle.report.specs.Reports.{Reports};

use crate::course::{Course, Parted, add_held};
use crate::progress;
use files::read_full;
use lines::start;
use paper::refused::ENTRIES_MANY;
use paper::{Counted, Place, Refusal};
use std::io::Read;

// The most entries that are counted.
const MOST_ENTRIES: usize = 1_000_000;

// Counts what a file has left. The part holds whole entries, at least one, so each turn that fills it takes one of those that may come, and
// the turns are enough.
pub(crate) fn count_turns(
    rt: &impl Eprint,
    watched: bool,
    parted: Parted,
    file: &mut impl Read,
    part: &mut [u8],
    counts: &mut [u64],
) -> Result<Counted, Refusal>
    requires by_index { (text : List ℕ) × PassedParts text parted.list.now parted.nodes.now parted.rows.now parted.n }
    requires part_value { cut_in (keys_in parted.list.now) part.old ≡ 0 }
    requires n_in_bounds { parted.n ≤ length counts.old }
    ensures { (file : List ℕ) × ((text : List ℕ) → PassedParts text parted.entry.list.now parted.entry.nodes.now parted.entry.rows.now parted.entry.n
        → Reports text parted.entry.list.now file result counts.old counts.new) }
{
    let n = parted.n;
    let size = keys::entry_size(parted.list);
    counting::clear(counts, n);
    let mut course = Course::none();
    let mut turns: usize = MOST_ENTRIES + 1;
    // A loop, and no `for .. break`: its invariant says what a further turn needs, that the last read filled the room.
    while 0 < turns {
        let got = read_full(file, part);
        if MOST_ENTRIES - course.whole < got / size {
            return Err(Refusal {
                number: ENTRIES_MANY,
                place: Place::Entry(MOST_ENTRIES * size),
            });
        }
        let before = course.whole;
        course = add_held(parted, start(part, got), counts, course);
        progress::show(rt, watched, before, course.whole);
        if got == part.len() {
            turns -= 1;
        } else {
            turns = 0;
        }
    }
    let totals = course.totals;
    Ok(Counted {
        parts: n,
        accepted: totals.accepted,
        violated: totals.violated,
        refused: totals.refused,
        cut: course.cut,
    })
}
