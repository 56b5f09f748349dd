// The promises of the public calls, held to account.
ghost use Rattle.paper.specs.Promised.{NoSecondResult, CanBeKept};
ghost use Rattle.tried.specs.WrongPrints.{WrongPrintsFail};
ghost use Rattle.tried.specs.WrongFixers.{WrongFixersFail};
ghost use Rattle.tried.specs.WrongRunners.{WrongRunnersFail};
ghost use Rattle.tried.specs.WrongCheckers.{WrongCheckersFail};
ghost use Rattle.tried.specs.WrongDrafters.{WrongDraftersFail};
ghost use Rattle.tried.specs.WrongComparers.{WrongComparersFail};
ghost use Rattle.tried.specs.WrongCounters.{WrongCountersFail};
ghost use Rattle.tried.specs.WrongTables.{WrongTablesFail};
ghost use Rattle.tried.specs.WrongPrograms.{WrongProgramsExist, WrongProgramsFail, NoWrongProgram, PaddingSeen};

// For all inputs one result keeps the promise of a call, and no second; of `translate`, `print`, `fix_octal` and `pact`, one answer with one
// buffer at exit, of `count` with the numbers of the parts at exit, and of `run_all` with the answers at exit.
pub fn no_second_result()
    ensures { NoSecondResult }
{}

// There are programs that keep them all.
pub fn promises_can_be_kept()
    ensures { CanBeKept }
{}

// Each wrong program is real: there is one that keeps the promises of all other calls.
pub fn wrong_programs_exist()
    ensures { WrongProgramsExist }
{}

// A judge that refuses or accepts everything, a translator that writes nothing or only the first part, that wants all blocks or invents its
// count, a loader that passes nothing or all that is laid out well, a printer that copies the text, leaves out or puts in all parentheses,
// writes "&&" for ";", every numeral in decimal or addresses in hex, an explainer that names the last false part, follows the tree's left spine
// or shows a key for a bad priority, a recheck that never reuses, always does, asks for equal entries, forgets the priority or compares readings,
// a summary that counts ::priority or misses the key of a field, a run that reports the code's instructions as its steps or whose skips leave the
// old bool, a load check that compares the heights of landings, a pass over octal that changes strings or comments, keeps leading zeros or drops
// the letters of the prefix, a type check that reduces numbers still, looks at right operands alone, gives 23 at the operator or takes no number
// below zero, a translation of contracts with NOT over the last assertion only, with joins from the right, with exclusive or as "||" or with clauses
// joined by "&&", a comparison that always agrees, always differs, matches the parts from the front of the code, lets a part be used twice or takes
// any shape of the joins, a count of the first false part alone, of refused entries in the parts, of the cut entry, or by the tree's left spine, a
// table in which every entry is judged as the first, nothing is judged after a refused one, later answers are cleared, a refused entry is told as
// violated, the steps are those of the last, or a cut entry is taken for a whole one: each fails a demand, refusal 18, or the place of refusal 23.
pub fn wrong_programs_fail()
    ensures { WrongProgramsFail }
{}

// So none of them keeps the promises.
pub fn no_wrong_program_keeps_them()
    ensures { NoWrongProgram }
{}

// The first part of `true; v == 0`, padded with true: its blocks load, and run to another answer than the text has.
pub fn padding_is_seen()
    ensures { PaddingSeen }
{}

// A printer that copies the text, one without parentheses, one with all of them, one that writes "&&" for ";", one that
// writes every numeral in decimal, one that writes addresses in hex: each fails what is asked of a print.
pub fn wrong_printers_fail()
    ensures { WrongPrintsFail }
{}

// A pass over octal that changes numerals in strings, one that changes them in comments, one that keeps leading zeros, one that turns `0o10` into
// `10`: each fails what is asked of it.
pub fn wrong_fixers_fail()
    ensures { WrongFixersFail }
{}

// A run that reports the code's instructions as its steps, one whose skips leave the old bool, a load check that compares the heights of landings:
// each fails what is asked of a run or a load.
pub fn wrong_runners_fail()
    ensures { WrongRunnersFail }
{}

// A type check that reduces numbers that lose bits still, one that looks at right operands alone, one that gives 23 at the operator, one that takes
// no number below zero: each fails what is asked of a check, or its promise.
pub fn wrong_checkers_fail()
    ensures { WrongCheckersFail }
{}

// A translation of contracts that puts NOT over the last assertion only, one that joins from the right, one that takes exclusive or for "||", one that
// joins clauses by "&&": each fails what is asked of it.
pub fn wrong_drafters_fail()
    ensures { WrongDraftersFail }
{}

// A comparison that always agrees, one that always differs, one that matches the parts from the front of the code, one that lets a part be used
// twice, one to which it is the same how the parts are joined: each fails what is asked of it.
pub fn wrong_comparers_fail()
    ensures { WrongComparersFail }
{}

// A count of only the first false part of an entry, one that has refused entries in its parts, one that counts the cut entry, one that takes its parts
// from the tree's left spine: each fails what is asked of it. A program that writes lines of parts before it knows whether there are too many entries
// fails what is asked of its output, and there is one that is right of every file that is not too long.
pub fn wrong_counters_fail()
    ensures { WrongCountersFail }
{}

// A table in which every entry is judged as the first, one in which nothing is judged after a refused entry, one that clears the later answers, one that
// tells a refused entry as violated, one that tells the steps of the last entry alone, one that takes a cut entry for a whole one: each fails what is
// asked of it.
pub fn wrong_tables_fail()
    ensures { WrongTablesFail }
{}
