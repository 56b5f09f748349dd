// A table in one call, against `run` on each of its entries, and against itself on the stretches of a table.
ghost use Rattle.paper.specs.RunAllRight.{ByteIsRun, ByteTells, LaterStay, AsManyAsBefore, StepsAreRuns, StepsOfEntries, StepsOfBytes, TableIsItsRuns, TableIsJudged, StretchesJoin, CallsJoin, OneIsRun};

// Byte i of the answers is what `run` says of entry i: 1 accepted, 2 violated, 0 refused.
pub fn a_byte_is_what_run_says()
    ensures { ByteIsRun }
{}

// A byte is 1 exactly where `run` accepts the entry, 2 exactly where it is violated, and 0 exactly where it is refused with 20 at a place inside the
// entry: for no other number, and nowhere else.
pub fn a_byte_tells_which()
    ensures { ByteTells }
{}

// The answers after those of the entries stay.
pub fn later_answers_stay()
    ensures { LaterStay }
{}

// There are as many answers as before, whether the call passes or is refused.
pub fn as_many_answers_as_before()
    ensures { AsManyAsBefore }
{}

// The steps are those of `run` on each entry together, of which 64 bits are kept; a refused entry takes none.
pub fn steps_are_summed()
    ensures { StepsAreRuns }
{}

// Of 2^52 entries or fewer they are the sum itself: a run takes at most 3,075 steps, the instructions of 123 blocks.
pub fn no_step_of_entries_is_lost()
    ensures { StepsOfEntries }
{}

// And so of 2^54 bytes of entries or fewer, whatever the keys.
pub fn no_step_of_bytes_is_lost()
    ensures { StepsOfBytes }
{}

// All of this of any programs that keep their promises: `run_all` against `run`, entry by entry.
pub fn a_table_is_its_runs()
    ensures { TableIsItsRuns }
{}

// By blocks that a text was translated into, byte i is what the text is judged to say of entry i, refusals included.
pub fn a_table_is_judged_by_its_text()
    ensures { TableIsJudged }
{}

// A table may be judged a stretch at a time: the bytes of whole entries and then of others are those of both, one after the other, and the steps add up.
pub fn stretches_join()
    ensures { StretchesJoin }
{}

// Two calls, the first with answers for its own entries only, say and write what one call says and writes.
pub fn calls_join()
    ensures { CallsJoin }
{}

// Of a table of one entry the byte and the steps are what `run` says of it.
pub fn one_entry_is_run()
    ensures { OneIsRun }
{}
