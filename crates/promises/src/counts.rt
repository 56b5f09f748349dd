// Entries laid end to end, counted by the parts of a text (02 m).
ghost use Rattle.paper.specs.CountedRight.{FileIsItsEntries, TotalsAddUp, ChunksAddUp, NoPartBeyondViolated, NoneViolatedByNone, OneIsJudged};

// A file is its whole entries, one after the other, each of the list's size, and then what is cut, which is shorter than one.
pub fn a_file_is_its_entries()
    ensures { FileIsItsEntries }
{}

// The accepted, the violated and the refused are together the whole entries; a cut one is in no total.
pub fn totals_add_up()
    ensures { TotalsAddUp }
{}

// A file may be counted a stretch at a time: the counts of whole entries and of what follows them add up to those of both, part by part.
pub fn chunks_add_up()
    ensures { ChunksAddUp }
{}

// No part is false on more entries than are violated.
pub fn no_part_beyond_the_violated()
    ensures { NoPartBeyondViolated }
{}

// No entry is violated exactly when every part's number is 0.
pub fn none_violated_when_no_part_is()
    ensures { NoneViolatedByNone }
{}

// Of a file of one entry the totals are what judging the entry says.
pub fn one_entry_is_judged()
    ensures { OneIsJudged }
{}
