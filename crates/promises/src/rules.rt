// The rules by example: what document 01 marks, both sides of every limit, and every clause of every definition. `tools/mutate` takes
// the modules named here for those in which a changed definition must be seen.
ghost use Rattle.tried.specs.MarkedJudgements.{Marked};
ghost use Rattle.tried.specs.Readings.{Readings};
ghost use Rattle.tried.specs.CaseFour.{CaseFour};
ghost use Rattle.tried.specs.Limits.{Texts, Lists, Entries, Held, Sizes};
ghost use Rattle.tried.specs.TokenExamples.{TokenExamples};
ghost use Rattle.tried.specs.AddressExamples.{AddressExamples};
ghost use Rattle.tried.specs.TreeExamples.{TreeExamples};
ghost use Rattle.tried.specs.SentenceExamples.{SentenceExamples};
ghost use Rattle.tried.specs.KeyExamples.{KeyExamples};
ghost use Rattle.tried.specs.EntryExamples.{EntryExamples};
ghost use Rattle.tried.specs.RequiredExamples.{RequiredExamples};
ghost use Rattle.tried.specs.DependenceExamples.{DependenceExamples};
ghost use Rattle.tried.specs.TypeExamples.{TypeExamples};
ghost use Rattle.tried.specs.BitsExamples.{BitsExamples};
ghost use Rattle.tried.specs.MeaningExamples.{MeaningExamples};
ghost use Rattle.tried.specs.BlockExamples.{BlockExamples};
ghost use Rattle.tried.specs.InstructionExamples.{InstructionExamples};
ghost use Rattle.tried.specs.TranslationExamples.{TranslationExamples};
ghost use Rattle.tried.specs.SkipExamples.{SkipExamples};
ghost use Rattle.tried.specs.PrintExamples.{PrintExamples};
ghost use Rattle.tried.specs.FixExamples.{FixExamples};
ghost use Rattle.tried.specs.DraftExamples.{DraftExamples};
ghost use Rattle.tried.specs.CompareExamples.{CompareExamples};
ghost use Rattle.tried.specs.CountExamples.{CountExamples};
ghost use Rattle.tried.specs.RunAllExamples.{RunAllExamples};
ghost use Rattle.tried.specs.PartExamples.{PartExamples};
ghost use Rattle.tried.specs.SummaryExamples.{SummaryExamples};
ghost use Rattle.tried.specs.AnswerExamples.{AnswerExamples};
ghost use Rattle.tried.specs.FaultExamples.{FaultExamples};

// The sixteen marked judgements.
pub fn marked_judgements()
    ensures { Marked }
{}

// Where document 01 leaves room for two readings, texts that show ours.
pub fn readings_shown()
    ensures { Readings }
{}

// Case 4: its block, byte for byte, which loads and accepts the marked entry.
pub fn case_four()
    ensures { CaseFour }
{}

// 4,096 bytes, 1,024 tokens, 64 levels, 2^128 - 1.
pub fn limits_of_texts()
    ensures { Texts }
{}

// 32 records of 80 bytes.
pub fn limits_of_lists()
    ensures { Lists }
{}

// Priority below 2^31, numbers below 2^W, prefix length at most W.
pub fn limits_of_entries()
    ensures { Entries }
{}

// 384 values held.
pub fn limits_of_held_values()
    ensures { Held }
{}

// The buffer of one block, and the lengths of blocks.
pub fn limits_of_sizes()
    ensures { Sizes }
{}

// Each class of bytes as a whole, each sign, and texts with their tokens.
pub fn examples_of_tokens()
    ensures { TokenExamples }
{}

// Address strings with their numbers, and bad ones.
pub fn examples_of_addresses()
    ensures { AddressExamples }
{}

// Texts with their trees, each sort of node at its place, and texts that are no sentence, refused where they stop being one.
pub fn examples_of_trees()
    ensures { TreeExamples }
{}

// Texts of each form of the grammar, derived with their trees.
pub fn examples_of_sentences()
    ensures { SentenceExamples }
{}

// Key lists with their keys, each byte of a record that may break its layout, names, and places.
pub fn examples_of_key_lists()
    ensures { KeyExamples }
{}

// Entries with what they read as, and each rule of each kind, kept and broken.
pub fn examples_of_entries()
    ensures { EntryExamples }
{}

// Keys that must be present: every call with them, with the marked entry, which lacks one, and with one that spells it out.
pub fn examples_of_required_keys()
    ensures { RequiredExamples }
{}

// What an answer depends on: every key of every kind sways a text that names it alone, bare or by each of its fields, and so does the priority;
// of a text that names none of it, it changes nothing, nor does a record that is spelled out; and a broken record that no text names refuses.
pub fn examples_of_dependence()
    ensures { DependenceExamples }
{}

// Every pair of operand types under every operator, every field of every kind, and the places of refusals 11 to 14.
pub fn examples_of_types()
    ensures { TypeExamples }
{}

// Both ends of the range at widths of 1, 8, 127 and 128 bits, every kind, field and comparison, signs, parentheses and addresses, what comes
// before 23 and is not judged after it, and the ints that are still reduced.
pub fn examples_of_lost_bits()
    ensures { BitsExamples }
{}

// Each operator on each pair of values, matches that are equal in all fields, and numbers that meet a width.
pub fn examples_of_values()
    ensures { MeaningExamples }
{}

// Numbers in bytes, the check, and each byte of a block that may break its layout.
pub fn examples_of_blocks()
    ensures { BlockExamples }
{}

// The bytes of each instruction, what can be read as one, the load check of each, and what each leaves in a run.
pub fn examples_of_instructions()
    ensures { InstructionExamples }
{}

// Texts with their instructions and steps, every instruction byte for byte, and what a buffer holds afterwards.
pub fn examples_of_translations()
    ensures { TranslationExamples }
{}

// The bytes of skips and what can be read as one, landings that fit and that do not, and runs with their steps.
pub fn examples_of_skips()
    ensures { SkipExamples }
{}

// Texts with their prints, every operator on each side of every other, numerals in each base, and what is lent.
pub fn examples_of_prints()
    ensures { PrintExamples }
{}

// Texts with what the pass over octal makes of them, what it refuses by the old rules, and what is lent.
pub fn examples_of_fixes()
    ensures { FixExamples }
{}

// Contracts with their texts, document 000's among them, every sort of fault, both sides of each limit, and what is lent.
pub fn examples_of_contracts()
    ensures { DraftExamples }
{}

// A text against blocks of its parts in every order, of parts that are alike, begin or end like one another or are joined otherwise, blocks with other
// skips or none, and what is refused before blocks are compared.
pub fn examples_of_comparing()
    ensures { CompareExamples }
{}

// Files of entries with their counts and the lines written: whole, cut, empty or without keys, parts that are false together, entries that are
// refused, both sides of 1,000,000 entries, and what is refused before anything is counted.
pub fn examples_of_counting()
    ensures { CountExamples }
{}

// Tables with their answers and steps: entries that are accepted, violated and refused side by side, none at all, both sides of a multiple of an
// entry's length and of the number of answers, later answers, entries of unlike steps, and the order of what is refused.
pub fn examples_of_tables()
    ensures { RunAllExamples }
{}

// Texts with their parts, both sides of each limit, and what is shown of an entry: a part, a key, or nothing.
pub fn examples_of_parts()
    ensures { PartExamples }
{}

// Texts with the keys that they name, both sides of each limit, and changes of an entry with what a recheck says of them.
pub fn examples_of_summaries()
    ensures { SummaryExamples }
{}

// Each case of each public answer, and of two faults the one whose stage runs first.
pub fn examples_of_answers()
    ensures { AnswerExamples }
{}

// An input with the fault of each row of the table, which of two faults wins, and the inputs of each call's stages in order.
pub fn examples_of_faults()
    ensures { FaultExamples }
{}
