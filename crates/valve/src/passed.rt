// What is made of a text that is good for the keys of a list, by the root of its tree or by its parts; or the refusal of text or list. The text is first
// tried with nodes for few tokens: most texts have no more, and less is cleared. Only where these may be too few is it looked at again, with nodes for any
// text.
ghost use Rattle.std.specs.Prelude.{◌*◌, ◌≤◌};
ghost use Rattle.paper.specs.Tokens.{most_tokens};
ghost use Rattle.reading.specs.Grown.{Enough, RowRoom};
ghost use Rattle.valve.specs.Passed.{TakesRoot, ByRoot, TakesParts, ByParts};

use paper::Refusal;
use tokens::Stop;

// With nodes of so many words, which are enough for the text. The function stays out of its caller, whose frame has room for few nodes.
#[inline(never)]
fn root_on<const WORDS: usize, A, F: FnOnce(&[u32], usize) -> A + Drop>(
    text: &[u8],
    list: &[u8],
    then: F,
) -> Result<A, Refusal>
    requires few_words { WORDS ≤ most_tokens * 8 }
    requires enough { Enough text.now WORDS }
    requires takes { TakesRoot text.now list.now (F.pre then) }
    ensures { ByRoot text.now list.now (F.post then) result }
{
    let mut nodes = [0u32; WORDS];
    let root = reading::restrict(text, list, &mut nodes)?;
    Ok(then(&nodes, root))
}

// By the root. A brief text is lent still fewer nodes.
pub(crate) fn with_root<A, F: FnOnce(&[u32], usize) -> A + Drop>(
    text: &[u8],
    list: &[u8],
    then: F,
) -> Result<A, Refusal>
    requires { TakesRoot text.now list.now (F.pre then) }
    ensures { ByRoot text.now list.now (F.post then) result }
{
    if text.len() <= reading::BRIEF_TEXT {
        return root_on::<{ reading::BRIEF_NODE_WORDS }, A, F>(text, list, then);
    }
    let mut nodes = [0u32; reading::SHORT_NODE_WORDS];
    match reading::try_restrict(text, list, &mut nodes) {
        Ok(root) => Ok(then(&nodes, root)),
        Err(Stop::Refused(refusal)) => Err(refusal),
        Err(Stop::Over) => root_on::<{ reading::NODE_WORDS }, A, F>(text, list, then),
    }
}

// With nodes for any text. The rows are lent, so that there is one set of them.
#[inline(never)]
fn parts_on<A, F: FnOnce(&[u32], &[u32], usize) -> A + Drop>(
    text: &[u8],
    list: &[u8],
    rows: &mut [u32],
    then: F,
) -> Result<A, Refusal>
    requires row_room { RowRoom rows.old }
    requires takes { TakesParts text.now list.now (F.pre then) }
    ensures { ByParts text.now list.now (F.post then) result }
{
    let mut nodes = [0u32; reading::NODE_WORDS];
    let n = reading::restrict_parts(text, list, &mut nodes, rows)?;
    Ok(then(&nodes, rows, n))
}

// By the parts.
pub(crate) fn with_parts<A, F: FnOnce(&[u32], &[u32], usize) -> A + Drop>(
    text: &[u8],
    list: &[u8],
    then: F,
) -> Result<A, Refusal>
    requires { TakesParts text.now list.now (F.pre then) }
    ensures { ByParts text.now list.now (F.post then) result }
{
    let mut nodes = [0u32; reading::SHORT_NODE_WORDS];
    let mut rows = [0u32; reading::PART_WORDS];
    match reading::try_parts(text, list, &mut nodes, &mut rows) {
        Ok(n) => Ok(then(&nodes, &rows, n)),
        Err(Stop::Refused(refusal)) => Err(refusal),
        Err(Stop::Over) => parts_on(text, list, &mut rows, then),
    }
}
