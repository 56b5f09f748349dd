// The pieces of an explanation: "handed back as the piece itself .. no copy".
ghost use Rattle.paper.specs.PiecesRight.{OneShown, PiecesShown};
ghost use Rattle.tried.specs.WrongCopiers.{CopiesFail};
ghost use Rattle.promises.specs.PiecesHeld.{TextPieceRight, ListPieceRight};

// For all inputs there is an explanation with its two pieces, and no second: pointer, length and bytes are fixed of a piece that has a byte, and
// of an empty one its block.
pub fn one_piece_and_no_second()
    ensures { OneShown }
{}

// A part's piece is its stretch of the text, with at least one byte; a key's is its name in the list; else both pieces are empty.
pub fn pieces_are_what_is_named()
    ensures { PiecesShown }
{}

// The same bytes elsewhere are no such piece. There is a program that hands back copies with all else right, and none such keeps the promise.
pub fn copies_fail()
    ensures { CopiesFail }
{}

// Demand 2 of the real piece of the text.
pub fn piece_of_text<'t, 'l>(text: &'t [u8], list: &'l [u8], entry: &[u8]) -> &'t [u8]
    ensures { TextPieceRight text.entry list.entry entry.now result }
{
    valve::explained_text(text, list, entry)
}

// Demand 2 of the real piece of the list.
pub fn piece_of_list<'t, 'l>(text: &'t [u8], list: &'l [u8], entry: &[u8]) -> &'l [u8]
    ensures { ListPieceRight text.entry list.entry entry.now result }
{
    valve::explained_list(text, list, entry)
}
