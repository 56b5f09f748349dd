// Pact contracts and their texts (02 k).
ghost use Rattle.paper.specs.DraftedRight.{ContractsRead, NamesAreKeys, LimitsAreReads, TextsMean, EmptyGivesTrue};

// A contract is read exactly when it is the bytes, by document 000's tables, of clauses whose indices all have names or user numbers, and as these
// clauses: nothing is added, dropped or read in another way.
pub fn contracts_are_their_bytes()
    ensures { ContractsRead }
{}

// Names that pass are a key list that passes, of 16 keys at most.
pub fn names_are_keys()
    ensures { NamesAreKeys }
{}

// The text of a contract is over a limit of tokens or levels exactly when it is not read.
pub fn over_a_limit_is_not_read()
    ensures { LimitsAreReads }
{}

// The text passes with the contract's names and, judged on an entry, is what the contract says of the entry's numbers by document 000 alone.
pub fn texts_say_what_contracts_say()
    ensures { TextsMean }
{}

// An empty contract, with names that pass, 16 user numbers at most and a buffer of 4 bytes or more, gives the text "true".
pub fn an_empty_contract_is_true()
    ensures { EmptyGivesTrue }
{}
