// Blocks of another translator against a text (02 l).
ghost use Rattle.paper.specs.ComparedRight.{AgreesExactly, AgreementMeansEqual, ReorderedAgree, OwnAgree};

// Of a text and a list that pass, and blocks that load with the list: they agree exactly when they are our translation of the text's top-level
// parts, each used once, in some order, joined from the left.
pub fn agrees_exactly_when()
    ensures { AgreesExactly }
{}

// Blocks that agree, run on any entry, say what judging the text says of it, refusals included; the steps may differ.
pub fn agreement_means_equal_answers()
    ensures { AgreementMeansEqual }
{}

// The blocks that we write for a text agree with every text that passes with the same list and whose parts have the same codes, each as often, in
// whatever order.
pub fn reordered_parts_agree()
    ensures { ReorderedAgree }
{}

// So the blocks that we write for a text agree with it.
pub fn own_blocks_agree()
    ensures { OwnAgree }
{}
