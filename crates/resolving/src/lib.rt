// Names to what they name: each key, field and attribute of a tree is looked up once, between reading and the walks.
//
// What is found is marked in the node of the name (crate trees). A name of nothing has its mark too, so that a text is refused at its
// first such name by the type check, in the order of document 01, and not here.
#![tactic(auto)]

ghost use Rattle.std.specs.Prelude.{◌≡◌, ◌+◌, ◌*◌, ◌≤◌, length};
ghost use Rattle.paper.specs.Tokens.{bytes, same_bytes};
ghost use Rattle.paper.specs.Keys.{find};
ghost use Rattle.paper.specs.Types.{field_named};
ghost use Rattle.paper.specs.Code.{bit};
ghost use Rattle.keys.specs.Says.{keys_in};
ghost use Rattle.trees.specs.Standing.{spelling};
ghost use Rattle.trees.specs.Marks.{key_mark, field_mark};
ghost use Rattle.resolving.specs.Resolved.{ResolvesAt, Resolves};

use trees::{Leaf, Span};
use values::fields;

fn key_mark(text: &[u8], list: &[u8], w: Span) -> u32
    requires { length list.now ≤ 2560 }
    ensures { result ≡ key_mark (find (keys_in list.now) (spelling text.now w)) }
{
    match keys::find_key(list, trees::spelled(text, w)) {
        Some(k) => k as u32 + 1,
        None => 0,
    }
}

fn field_mark(text: &[u8], f: Span) -> u32
    ensures { result ≡ field_mark (field_named (spelling text.now f)) }
{
    match fields::field_named(trees::spelled(text, f)) {
        Some(n) => u32::from(n) + 1,
        None => 0,
    }
}

fn priority_mark(text: &[u8], f: Span) -> u32
    ensures { result ≡ bit (same_bytes (spelling text.now f) (bytes "priority")) }
{
    u32::from(fields::is_priority(trees::spelled(text, f)))
}

fn resolve_node(text: &[u8], list: &[u8], nodes: &mut [u32], i: usize)
    requires { (length list.now ≤ 2560) × (i * 8 + 8 ≤ length nodes.old) }
    ensures { ResolvesAt (keys_in list.now) text.now nodes.old nodes.new i }
{
    let leaf = Leaf::read(nodes, i);
    match leaf {
        Leaf::Truth(_) | Leaf::Number(..) => {}
        Leaf::Key(w) => {
            let key = key_mark(text, list, w);
            trees::mark(nodes, i, key, 0);
        }
        Leaf::Field(w, f) => {
            let key = key_mark(text, list, w);
            let name = field_mark(text, f);
            trees::mark(nodes, i, key, name);
        }
        Leaf::Attribute(f) => {
            let name = priority_mark(text, f);
            trees::mark(nodes, i, 0, name);
        }
    }
}

// Marks the names of the first `count` nodes. No list that passes its check has more bytes, so an index is a mark.
pub fn resolve(text: &[u8], list: &[u8], nodes: &mut [u32], count: usize)
    requires { (length list.now ≤ 2560) × (count * 8 ≤ length nodes.old) }
    ensures { Resolves (keys_in list.now) text.now nodes.old nodes.new count }
{
    for i in 0..count {
        resolve_node(text, list, nodes, i);
    }
}
