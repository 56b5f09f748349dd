// The summary of what a text names, and a recheck by it.
ghost use Rattle.paper.specs.RecheckedRight.{BitsAreNames, ReusedExactly, FreshIfTrue};
ghost use Rattle.tried.specs.WrongRecheckers.{WrongRecheckersFail};

// Of a text and a list that pass: a bit is set exactly where the text names the key, as a whole or by a field, and no bit past the list's keys;
// the ones are as many as the keys that it names; and the mark is set exactly where it names ::priority.
pub fn bits_are_names()
    ensures { BitsAreNames }
{}

// An earlier answer is reused exactly when text and list pass, both entries conform, every record that the text names has the same bytes in both
// and, if it names ::priority, the priority is the same; else the new entry is judged, refusals included. Nothing else is right.
pub fn reused_exactly_when()
    ensures { ReusedExactly }
{}

// If the earlier answer is the old entry's true judgement, the result is the judgement worked out afresh for the new one.
pub fn true_answers_stay_true()
    ensures { FreshIfTrue }
{}

// A recheck that never reuses, always does, asks for equal entries, forgets the priority or compares readings in place of records; a summary that
// counts ::priority as a key, or misses the key of a field: each fails what is asked.
pub fn wrong_recheckers_fail()
    ensures { WrongRecheckersFail }
{}
