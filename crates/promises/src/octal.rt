// The pass that writes the octal numerals of a text in hex (02 h).
ghost use Rattle.paper.specs.FixedRight.{NeverLonger, OthersStay, InOrder, SameTokens, SameTree, SameMeaning};

// It never makes a text longer, so a buffer of the text's length is always large enough.
pub fn never_longer()
    ensures { NeverLonger }
{}

// A text that has its tokens without octal numerals is copied as it stands.
pub fn other_texts_stay()
    ensures { OthersStay }
{}

// Of any text every byte stands as it stood, in its order, but for those of an octal numeral, which stands in hex.
pub fn other_bytes_stay_in_order()
    ensures { InOrder }
{}

// A text that has tokens by the old rules has the same ones, places aside, in what the pass makes of it, where an octal numeral is one in hex.
pub fn same_tokens()
    ensures { SameTokens }
{}

// Such a text is read by the old rules exactly when what the pass makes of it is read by the new ones, as the same tree, places and bases aside.
pub fn read_as_the_same_tree()
    ensures { SameTree }
{}

// Trees that are the same so have the same types, but for the place of a refusal, the same values and the same code.
pub fn same_trees_mean_the_same()
    ensures { SameMeaning }
{}
