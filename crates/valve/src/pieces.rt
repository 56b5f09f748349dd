// What broke for an entry, handed back as the piece itself: a stretch of the text or the name in the key list, where it lies. Nothing is
// copied, and each piece lives as long as the input that it lies in.
ghost use Rattle.paper.specs.Pieces.{InText, InList, ExplainedPromised};
ghost use Rattle.valve.specs.Shown.{TextShown, ListShown};

use crate::reason;
use paper::Explanation;

// What `why` names of the text, and what it names of the list: one of them is empty, and both where there is nothing to show.
#[derive(Clone, Copy)]
pub struct Explained<'t, 'l> {
    pub text: &'t [u8],
    pub list: &'l [u8],
    pub why: Explanation,
}

// What an explanation names of the text.
pub fn text_piece<'t>(text: &'t [u8], why: Explanation) -> &'t [u8]
    ensures { InText why text.entry result }
{
    match why {
        Explanation::Part(_, _, from, to) => trees::stretch(text, from, to),
        Explanation::Key(..) | Explanation::Nothing(_) => trees::stretch(text, 0, 0),
    }
}

// What an explanation names of the key list.
pub fn list_piece<'l>(list: &'l [u8], why: Explanation) -> &'l [u8]
    ensures { InList why list.entry result }
{
    match why {
        Explanation::Key(_, from, to) => trees::stretch(list, from, to),
        Explanation::Part(..) | Explanation::Nothing(_) => trees::stretch(list, 0, 0),
    }
}

// The reason, with its piece of the text and its piece of the list.
pub fn explain<'t, 'l>(text: &'t [u8], list: &'l [u8], entry: &[u8]) -> Explained<'t, 'l>
    ensures { ExplainedPromised text.entry list.entry entry.now result.why result.text result.list }
{
    let why = reason(text, list, entry);
    Explained {
        text: text_piece(text, why),
        list: list_piece(list, why),
        why,
    }
}

// The piece of the text alone, for a caller that can hold no struct with references.
pub fn explained_text<'t, 'l>(text: &'t [u8], list: &'l [u8], entry: &[u8]) -> &'t [u8]
    ensures { TextShown text.entry list.entry entry.now result }
{
    explain(text, list, entry).text
}

// The piece of the list alone.
pub fn explained_list<'t, 'l>(text: &'t [u8], list: &'l [u8], entry: &[u8]) -> &'l [u8]
    ensures { ListShown text.entry list.entry entry.now result }
{
    explain(text, list, entry).list
}
