// The print of a text in house style.
ghost use Rattle.paper.specs.PrintReadsBack.{PrintReadsBack, PrintsTell, NothingToSpare, PrintNoLarger, LentPrintReads, CleanPrintReads};

// Reading the print of a text gives the same tree, places aside.
pub fn print_reads_back()
    ensures { PrintReadsBack }
{}

// Two texts have equal prints exactly when their trees are equal in that sense.
pub fn prints_tell_trees_apart()
    ensures { PrintsTell }
{}

// No text with that tree has fewer tokens than the print, so no pair of parentheses can go.
pub fn no_parenthesis_to_spare()
    ensures { NothingToSpare }
{}

// A print has no more tokens and no more levels than its text.
pub fn print_no_larger()
    ensures { PrintNoLarger }
{}

// A print that is lent passes `read`, with as many nodes as its text.
pub fn a_lent_print_reads()
    ensures { LentPrintReads }
{}

// A tree within the limits, wherever it came from, is read back from its print.
pub fn clean_trees_read_back()
    ensures { CleanPrintReads }
{}
