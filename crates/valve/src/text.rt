// A text alone, and a text against a key list. As every call that makes a text's tree, these two first lend nodes for few tokens, and nodes for any text
// only where these may be too few.
ghost use Rattle.std.specs.Prelude.{◌≤◌, length};
ghost use Rattle.paper.specs.Tokens.{most_text};
ghost use Rattle.paper.specs.Promised.{ReadPromised, CheckPromised};

use crate::passed;
use paper::{Place, Refusal, refused};
use tokens::Stop;

// A function over a closure would be called from here alone: `print`, the other call without a list, fills a buffer (style.rt).
fn read_long(text: &[u8]) -> Result<usize, Refusal>
    requires { length text.now ≤ most_text }
    ensures { ReadPromised text.now result }
{
    let mut nodes = [0u32; reading::NODE_WORDS];
    reading::read_tree(text, &mut nodes)
}

// How many nodes the text's tree has.
pub fn read(text: &[u8]) -> Result<usize, Refusal>
    ensures { ReadPromised text.now result }
{
    if reading::MOST_TEXT < text.len() {
        return Err(Refusal {
            number: refused::TEXT_TOO_LONG,
            place: Place::Text(reading::MOST_TEXT),
        });
    }
    let mut nodes = [0u32; reading::SHORT_NODE_WORDS];
    match reading::try_tree(text, &mut nodes) {
        Ok(size) => Ok(size),
        Err(Stop::Refused(refusal)) => Err(refusal),
        Err(Stop::Over) => read_long(text),
    }
}

// Whether the text is a restriction that is good for the keys of the list.
pub fn check(text: &[u8], list: &[u8]) -> Result<(), Refusal>
    ensures { CheckPromised text.now list.now result }
{
    passed::with_root(text, list, |_, _| ())
}
