// Translating a text, and what its blocks say.
ghost use Rattle.paper.specs.CodeCorrect.{CodeCounted, FewBesideNodes, MeetsByConverting, ComparesWhereMet, CodeFits, CodePushesType, CodePushesValue, FewHeld};
ghost use Rattle.paper.specs.BlocksRoundTrip.{BlocksBack, PartsAgain, BytesAgain};
ghost use Rattle.paper.specs.TranslationCorrect.{TranslationCarries, CheckedTranslates, RefusedUnchanged};

// The instructions are the nodes of the tree plus the conversions plus the joins.
pub fn instructions_counted()
    ensures { CodeCounted }
{}

// The types in which operands meet, as document 01 lists them for "==" and "!=", are those that conversions bring them to.
pub fn operands_meet_by_conversion()
    ensures { MeetsByConverting }
{}

// And a comparison takes its operands exactly when its instruction takes two of the type in which they meet.
pub fn comparisons_take_what_meets()
    ensures { ComparesWhereMet }
{}

// A node has at most one instruction beside its own: a conversion, or a skip.
pub fn one_instruction_beside_a_node()
    ensures { FewBesideNodes }
{}

// They are at most 2,048, so 82 blocks are room enough.
pub fn translation_fits()
    ensures { CodeFits }
{}

// The code of a tree passes the load check wherever it stands, and leaves the tree's type on top of what is held.
pub fn code_pushes_a_type()
    ensures { CodePushesType }
{}

// And in a run the tree's value, in as many steps as are counted over the tree.
pub fn code_pushes_a_value()
    ensures { CodePushesValue }
{}

// A translation holds at most 326 values.
pub fn few_values_held()
    ensures { FewHeld }
{}

// Blocks that are written read back as the instructions that were written.
pub fn blocks_read_back()
    ensures { BlocksBack }
{}

// Parts that are read as an instruction are the parts of that instruction: unused ones are zero, and no second spelling is read.
pub fn parts_have_one_spelling()
    ensures { PartsAgain }
{}

// So are its bytes: 20 bytes that are read as an instruction are the ones it is written as, and it is in range.
pub fn instructions_have_one_spelling()
    ensures { BytesAgain }
{}

// The blocks written load with the list, and running them on any entry gives the judgement of the text, refusals included, in the steps that
// are counted over its tree.
pub fn translation_carries_the_judgement()
    ensures { TranslationCarries }
{}

// A text that passes is translated into a buffer of 82 blocks.
pub fn checked_texts_translate()
    ensures { CheckedTranslates }
{}

// A refused translation leaves the buffer as it was.
pub fn refusals_change_nothing()
    ensures { RefusedUnchanged }
{}
