// The refusal numbers.
ghost use Rattle.paper.specs.Table.{TableHolds, TokensAreCut};
ghost use Rattle.paper.specs.Ranges.{OnlyWider, OneValueConforms};

// Each call gives each number exactly when the table says, at the place that it says: stages in order, in a stage the earliest place, at
// one place the lower number. It passes exactly when no stage has a fault.
pub fn refusals_by_the_table()
    ensures { TableHolds }
{}

// A text passes 5, 6, 7 and 22 exactly when it is cut into blanks and at most 1,024 tokens, each the longest possible from the left.
pub fn texts_are_cut_into_tokens()
    ensures { TokensAreCut }
{}

// Of number 20, request b changed no more than this: a range of one port, other than 0, is taken.
pub fn ranges_of_one_port_are_taken()
    ensures { OnlyWider }
{}

// The match that a number becomes keeps its kind's rule, so that an entry can hold it.
pub fn one_value_conforms()
    ensures { OneValueConforms }
{}
