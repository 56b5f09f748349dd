// A text in house style: the refusals of `read`, then 21.
ghost use Rattle.std.specs.Prelude.{◌≡◌, ◌+◌, ◌*◌, ◌≤◌, length, take};
ghost use Rattle.paper.specs.Tokens.{most_text};
ghost use Rattle.paper.specs.Print.{print};
ghost use Rattle.paper.specs.Calls.{over};
ghost use Rattle.paper.specs.Promised.{PrintPromised};
ghost use Rattle.trees.specs.Standing.{tree_at};
ghost use Rattle.reading.specs.Grown.{Planted};
ghost use Rattle.valve.specs.Lent.{Lent};

use paper::{Place, Refusal, refused};
use printing::Rung;
use spelling::bytes;
use tokens::Stop;

// Copies the first n bytes of a scratch to the front of the buffer.
pub(crate) fn lend_first(scratch: &[u8], n: usize, buffer: &mut [u8])
    requires { (n ≤ length scratch.now) × (n ≤ length buffer.old) }
    ensures { buffer.new ≡ over (take n scratch.now) buffer.old }
{
    bytes::copy(&scratch[..n], 0, buffer)
}

// The print of the tree at a node. It is written to scratch first, so that the buffer is known to be large enough before its first byte
// changes.
pub(crate) fn lend_print(
    text: &[u8],
    nodes: &[u32],
    node: usize,
    buffer: &mut [u8],
) -> Result<usize, Refusal>
    requires { node * 8 + 8 ≤ length nodes.now }
    ensures { Lent (print (tree_at text.now nodes.now node)) buffer.old (record { answer = result; buffer = buffer.new }) }
{
    let mut scratch = [0u8; reading::MOST_TEXT];
    let n = printing::write_tree(text, nodes, node, Rung::Sequel, 0, &mut scratch);
    if reading::MOST_TEXT < n || buffer.len() < n {
        return Err(Refusal {
            number: refused::PRINT_LONG,
            place: Place::Buffer(buffer.len()),
        });
    }
    lend_first(&scratch, n, buffer);
    Ok(n)
}

// The print of a text whose tree has so many nodes, which are lent.
fn print_grown(text: &[u8], nodes: &[u32], size: usize, buffer: &mut [u8]) -> Result<usize, Refusal>
    requires text_len_bound { length text.now ≤ most_text }
    requires planted { Planted text.now nodes.now size }
    ensures { PrintPromised text.now buffer.old (record { answer = result; buffer = buffer.new }) }
{
    lend_print(text, nodes, size - 1, buffer)
}

// No closure over the tree that this and `read` could share, as in writing.rt: it fills the buffer.
fn print_long(text: &[u8], buffer: &mut [u8]) -> Result<usize, Refusal>
    requires { length text.now ≤ most_text }
    ensures { PrintPromised text.now buffer.old (record { answer = result; buffer = buffer.new }) }
{
    let mut nodes = [0u32; reading::NODE_WORDS];
    let size = reading::read_tree(text, &mut nodes)?;
    print_grown(text, &nodes, size, buffer)
}

// The length of the print, which stands at the front of the buffer. Every later byte of the buffer stays, and all of it on a refusal.
pub fn print(text: &[u8], buffer: &mut [u8]) -> Result<usize, Refusal>
    ensures { PrintPromised text.now buffer.old (record { answer = result; buffer = buffer.new }) }
{
    if reading::MOST_TEXT < text.len() {
        return Err(Refusal {
            number: refused::TEXT_TOO_LONG,
            place: Place::Text(reading::MOST_TEXT),
        });
    }
    let mut nodes = [0u32; reading::SHORT_NODE_WORDS];
    match reading::try_tree(text, &mut nodes) {
        Ok(size) => print_grown(text, &nodes, size, buffer),
        Err(Stop::Refused(refusal)) => Err(refusal),
        Err(Stop::Over) => print_long(text, buffer),
    }
}
