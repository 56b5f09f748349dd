// Reading a text: refusals 8, 9 and 10 against the grammar of sentences.
ghost use Rattle.paper.specs.Sentences.{ParsedIsRight, ReadIsValid, ValidIsSentence, OneTree, EightIsFirstBad, FirstBadIsEight};
ghost use Rattle.paper.specs.Places.{NodesWithinTokens, OffsetsRise, PlacesInText, RefusalsInText};

// Tokens are read to a tree exactly when they are a valid sentence with that tree, and refused with 8, 9 or 10 exactly where and when the grammar says.
pub fn parsed_exactly_when()
    ensures { ParsedIsRight }
{}

// A text is read exactly when it is a sentence within the limits.
pub fn read_exactly_the_valid()
    ensures { ReadIsValid }
{}

// What is valid is a sentence, level limit and address contents aside.
pub fn valid_is_a_sentence()
    ensures { ValidIsSentence }
{}

// A sentence has one tree.
pub fn one_tree()
    ensures { OneTree }
{}

// Refusal 8 stands at the first token that no sentence could continue with, or at the text's length.
pub fn eight_at_the_first_bad_token()
    ensures { EightIsFirstBad }
{}

// And there it is given, where neither 9 nor 10 comes first.
pub fn first_bad_token_is_eight()
    ensures { FirstBadIsEight }
{}

// A tree has no more nodes than the text has tokens.
pub fn nodes_within_tokens()
    ensures { NodesWithinTokens }
{}

// Each token begins after the one before it, in the text.
pub fn token_offsets_rise()
    ensures { OffsetsRise }
{}

// Every place of a node lies in the text.
pub fn node_places_in_the_text()
    ensures { PlacesInText }
{}

// Refusals 8, 9 and 10 lie in the text, or at its length.
pub fn refusals_in_the_text()
    ensures { RefusalsInText }
{}
