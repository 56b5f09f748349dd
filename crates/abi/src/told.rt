// What C is told leaves no doubt.
ghost use Rattle.abi.specs.Told.{OneAnswerForC, TellsAll, ReasonsAsJudged, EarlierHeard};

// For all inputs C is told one thing, and no second.
pub fn one_answer_for_c()
    ensures { OneAnswerForC }
{}

// From the four numbers of a call its answer can be read back, from the eight of a reason the explanation, from the seven of a summary, the five
// of a recheck, the eight of a count and the five of a table that ran theirs; so no two are told by the same.
pub fn four_numbers_tell_all()
    ensures { TellsAll }
{}

// The first four numbers of a reason are those of the judgement.
pub fn reasons_as_judged()
    ensures { ReasonsAsJudged }
{}

// An earlier judgement is heard as it was told, and numbers that tell none as refused with 20 at entry 0.
pub fn earlier_heard()
    ensures { EarlierHeard }
{}
