// What an answer may depend on (02 n). Each is said of any programs that keep the promises, and of entries that conform: of refused ones none
// of it holds.
ghost use Rattle.paper.specs.Dependence.{UnnamedDoesNotMatter, SummaryTellsAll, SpelledOutDoesNotMatter, EachNamedCanMatter, SummaryTellsNoMore};

// Two entries that hold equal records for every key that the text names, and have equal priority where it names ::priority, are judged and
// explained alike, and the blocks of the text run alike on both, in as many steps.
pub fn unnamed_does_not_matter()
    ensures { UnnamedDoesNotMatter }
{}

// So two entries that are the same in the records of the summary's bits and, where it is marked, in their priority.
pub fn the_summary_tells_all()
    ensures { SummaryTellsAll }
{}

// An absent record may be replaced by the present one that spells out its reading: the entry conforms, is read as the same matches, and gets
// the same answer from every call, and from the run of any blocks the same steps.
pub fn spelled_out_does_not_matter()
    ensures { SpelledOutDoesNotMatter }
{}

// The other way, for any list: whatever names a key in a text that passes, the key by itself or a field of it, compared with 0 is a text that names
// this key and nothing else, and of two entries that differ in the record of this key alone the judge accepts one and calls the other violated.
pub fn each_named_can_matter()
    ensures { EachNamedCanMatter }
{}

// So each bit of a summary is that of a key which can matter.
pub fn the_summary_tells_no_more()
    ensures { SummaryTellsNoMore }
{}
