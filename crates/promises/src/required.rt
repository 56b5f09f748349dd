// Keys that must be present (02 i).
ghost use Rattle.paper.specs.Required.{OldListsAsBefore, OnlyTheFlag, OnlyAbsence, MustBePresent};

// A list with 0 in byte 3 of every record gets the answers that it got before there was a flag: it is read into the same keys or refused
// alike, and so is every entry for it. Each list that passed before is one of these.
pub fn old_lists_as_before()
    ensures { OldListsAsBefore }
{}

// A record keeps its layout where its flag is 0 or 1 and, with 0 in the flag's place, it kept that of before. The flag says whether the
// key must be present.
pub fn only_the_flag_is_new()
    ensures { OnlyTheFlag }
{}

// Of number 20, the flag changed no more than this: a key's record in an entry is refused besides where it is absent and must be present.
pub fn only_absence_is_refused()
    ensures { OnlyAbsence }
{}

// The absence of a key that must be present is 20 at its record, and every entry that conforms has the key.
pub fn required_keys_are_present()
    ensures { MustBePresent }
{}
