// Running what loads.
ghost use Rattle.paper.specs.LoadedBlocksRun.{CheckIsRun, OlderCode, LoadedRuns};
ghost use Rattle.paper.specs.TranslationCorrect.{LoadedAnswers};
ghost use Rattle.paper.specs.TypeSoundness.{ValuesHaveTypes, Judged};

// Where nothing is passed over, following the types is the run seen through types: they fail nothing that would run well-typed.
pub fn load_check_is_the_run()
    ensures { CheckIsRun }
{}

// Code without skips is checked and run as document 01 has it: each instruction once, so in as many steps as there are instructions.
pub fn older_code_runs_as_before()
    ensures { OlderCode }
{}

// Blocks that load run on every conforming entry to accepted or violated, whatever is skipped: each instruction at most once, never missing an
// operand, never holding more than 384 values, in no more steps than there are instructions.
pub fn loaded_blocks_run()
    ensures { LoadedRuns }
{}

// And the call answers accepted or violated.
pub fn loaded_blocks_answer()
    ensures { LoadedAnswers }
{}

// A tree has a value on a conforming entry exactly when it has a type, and the value has that type.
pub fn values_have_their_types()
    ensures { ValuesHaveTypes }
{}

// A text that passes the type check is true or false of every conforming entry.
pub fn typed_texts_are_judged()
    ensures { Judged }
{}
