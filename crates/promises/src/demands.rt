// The demands, each as one statement: programs that keep the promises of the public calls meet it.
ghost use Rattle.paper.specs.Demands.{DemandOneMet, DemandTwoMet, DemandThreeMet};

// Every input gets an answer. A refusal has a number from 1 to 25 and a place in an input that was lent, or at its length; and it changes
// no byte of the buffer or of the answers and no number that was lent.
pub fn every_input_is_answered()
    ensures { DemandOneMet }
{}

// An entry is refused exactly when the text is over a limit, ill-formed or ill-typed, or the list or the entry does not conform; else it is
// accepted exactly when the restriction holds of it. A text is printed exactly when it is read and its print may be lent, and its octal numerals
// are written in hex exactly when it has tokens by the old rules and the result may be lent. Of a violated entry the first false part is named, of
// a bad record its key, and else nothing. A summary has the keys that the text names, and an earlier answer is reused exactly where both entries
// conform and are the same in all that the text names. A contract becomes a text exactly when it has a meaning with its names and user numbers and the
// text may be lent, and the text passes and says of every entry what the contract says of its numbers. Blocks of another translator are compared
// exactly when the text passes with the list and they load with it; they agree exactly when they are our translation of the text's parts, each used
// once, in some order, joined from the left; and then they say of every entry what the text says. Entries laid end to end are counted exactly when the text passes with the
// list and no more than 1,000,000 are whole; the three totals, the bytes of a cut entry and the number of each part are then those of the definition
// over the list of entries. A table is judged in one call exactly when the blocks load with the list, no entry is cut and there is an answer for each;
// the answers and the steps are then those of the definition over the list of entries, and later answers stay.
pub fn judged_as_the_text_means()
    ensures { DemandTwoMet }
{}

// A text that passes is translated; its blocks load with the count returned, and say of every entry what the text says, refusals included.
// All blocks that load, whoever made them, run on every conforming entry to accepted or violated, each instruction once, never missing an
// operand, never holding more than 384 values.
pub fn blocks_say_what_the_text_says()
    ensures { DemandThreeMet }
{}
