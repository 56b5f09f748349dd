// The parts of a text, and what broke: the explanation of an entry.
ghost use Rattle.paper.specs.PartsDecide.{TextIsItsParts, PartsDecide, PartsInText, FewParts, AtMostParts};
ghost use Rattle.paper.specs.ExplainedRight.{ExplainedIsRight, ExplainedAsJudged, PiecesInInputs};
ghost use Rattle.tried.specs.WrongExplainers.{WrongExplainersFail, WrongExplainersExist};

// The tree of a text is the trees of its top-level parts, joined by ";" from the left.
pub fn text_is_its_parts()
    ensures { TextIsItsParts }
{}

// A text holds of an entry exactly where each of its parts does.
pub fn parts_decide()
    ensures { PartsDecide }
{}

// The stretch of each part lies in the text, and the place of its root in the stretch.
pub fn parts_in_the_text()
    ensures { PartsInText }
{}

// Each part has a token, and a ";" stands between two.
pub fn few_parts()
    ensures { FewParts }
{}

// So no text has more than 512.
pub fn at_most_512_parts()
    ensures { AtMostParts }
{}

// The explanation is the one that is asked for, and no other is: of a violated entry the part that is false where all before it are true, with
// its number, its root's place and its stretch; of a bad record its key; else nothing, and the answer.
pub fn explained_exactly_so()
    ensures { ExplainedIsRight }
{}

// It never contradicts the judgement, which can be read off it.
pub fn explained_as_judged()
    ensures { ExplainedAsJudged }
{}

// The piece shown lies in the text, or in the list, where it is the key's name.
pub fn pieces_in_their_inputs()
    ensures { PiecesInInputs }
{}

// An explainer that names the last false part, one that follows the tree's left spine, one that shows a key for a bad priority: each fails what
// is asked of an explanation.
pub fn wrong_explainers_fail()
    ensures { WrongExplainersFail }
{}

// And each is real: there is one that is right everywhere else.
pub fn wrong_explainers_exist()
    ensures { WrongExplainersExist }
{}
