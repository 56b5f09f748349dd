// Operands that open no level: truths, numerals, keys, fields, attributes and addresses.
ghost use Rattle.std.specs.Prelude.{◌≡◌, ◌+◌, ◌<◌, length};
ghost use Rattle.std.proofs.lemmas.List.Edits.{sets};
ghost use Rattle.paper.specs.Addresses.{address};
ghost use Rattle.paper.specs.Grammar as G;
ghost use Rattle.paper.specs.Tokens as paper;
ghost use Rattle.addresses.specs.Reads as addressed;
ghost use Rattle.tokens.specs.Tape.{tape_of, Has, start_at, end_at, literal_at};
ghost use Rattle.tokens.specs.Tokenized.{Sound};
ghost use Rattle.trees.specs.Words.{leaf_words, words};
ghost use Rattle.grammar.specs.Ladder as L;
ghost use Rattle.grammar.specs.Places.{Fits, node_at, place_on, word_on, past, onward};
ghost use Rattle.grammar.specs.Reading.{start_of, Ready, Leads, Worded, Reads, Begins, Closes, is_name, taken};

use crate::steps::{COUNT, NODE, Start, TOKEN, Taken};
use crate::store::{put_attribute, put_field, put_number};
use crate::tape::{next_in, place_at, string_at, word_at};
use addresses::Scheme;
use number::Literal;
use paper::Refusal;
use paper::refused::{ADDRESS, GRAMMAR, LEVELS_MANY};
use spelling::bytes::same_bytes;
use tokens::kinds::{CLOSING, COLONS, MINUS, NOT, NUMERAL, OPENING, STRING, WORD};
use tokens::rows::{end_at, kind_at, literal_at, start_at};

// A leaf. What would open a level is refused.
pub(crate) fn leaf(
    text: &[u8],
    tape: &[u32],
    from: &Start,
    nodes: &mut [u32],
) -> Result<Taken, Refusal>
    requires { Ready (tape_of text.now tape.now) (length nodes.old) (start_of from.now) }
    ensures { Reads (λ _. L.prefix 0) (tape_of text.now tape.now) (start_of from.now) nodes.old nodes.new result }
{
    let at = from[TOKEN];
    let free = from[NODE];
    let count = from[COUNT];
    if count <= at {
        return Err(Refusal {
            number: GRAMMAR,
            place: place_at(text, tape, count, at),
        });
    }
    let kind = kind_at(tape, at);
    match kind {
        WORD => word(text, tape, from, nodes),
        NUMERAL => numeral(tape, at, free, nodes),
        NOT | MINUS | OPENING => Err(Refusal {
            number: LEVELS_MANY,
            place: place_at(text, tape, count, at),
        }),
        COLONS => attribute(text, tape, from, nodes),
        _ => Err(Refusal {
            number: GRAMMAR,
            place: place_at(text, tape, count, at),
        }),
    }
}

// A ")" must follow the tree that ends before the node `free`.
pub(crate) fn close(
    text: &[u8],
    tape: &[u32],
    count: usize,
    free: usize,
    at: usize,
) -> Result<Taken, Refusal>
    requires { Sound (tape_of text.now tape.now) count }
    ensures { Closes (length text.now) tape.now count free at result }
{
    let Some(_) = next_in(tape, count, at, CLOSING, CLOSING) else {
        return Err(Refusal {
            number: GRAMMAR,
            place: place_at(text, tape, count, at),
        });
    };
    Ok(Taken {
        node: free,
        token: at + 1,
    })
}

// The nodes of leaves, each with the token after it.

fn truth_node(
    tape: &[u32],
    at: usize,
    free: usize,
    truth: bool,
    nodes: &mut [u32],
) -> Result<Taken, Refusal>
    requires { Fits nodes.old free × Has tape.now at × (at < paper.most_tokens) }
    ensures { (result ≡ taken (free + 1) (at + 1))
        × (nodes.new ≡ sets nodes.old (node_at free) (words free (G.truth (start_at tape.now at) truth))) }
{
    trees::put_truth(nodes, free, start_at(tape, at), truth);
    Ok(Taken {
        node: free + 1,
        token: at + 1,
    })
}

fn key_node(tape: &[u32], at: usize, free: usize, nodes: &mut [u32]) -> Result<Taken, Refusal>
    requires { Fits nodes.old free × Has tape.now at × (at < paper.most_tokens) }
    ensures { (result ≡ taken (free + 1) (at + 1))
        × (nodes.new ≡ sets nodes.old (node_at free)
        (leaf_words 2 (start_at tape.now at) (start_at tape.now at) (end_at tape.now at) 0 0)) }
{
    trees::put_key(nodes, free, start_at(tape, at), end_at(tape, at));
    Ok(Taken {
        node: free + 1,
        token: at + 1,
    })
}

fn numeral(tape: &[u32], at: usize, free: usize, nodes: &mut [u32]) -> Result<Taken, Refusal>
    requires { Fits nodes.old free × Has tape.now at × (at < paper.most_tokens) }
    ensures { (result ≡ taken (free + 1) (at + 1))
        × (nodes.new ≡ sets nodes.old (node_at free)
        (words free (G.number (start_at tape.now at) (literal_at tape.now at)))) }
{
    put_number(tape, nodes, free, at, literal_at(tape, at));
    Ok(Taken {
        node: free + 1,
        token: at + 1,
    })
}

// Whether no dot is among some bytes.
fn undotted(bytes: &[u8]) -> bool
    ensures { result ≡ paper.undotted bytes.now }
{
    bytes.iter().take_while(|byte| **byte != b'.').count() == bytes.len()
}

// Whether an undotted word stands at an index.
fn is_name(text: &[u8], tape: &[u32], count: usize, at: usize) -> bool
    requires { Sound (tape_of text.now tape.now) count }
    ensures { result ≡ is_name (tape_of text.now tape.now) count at }
{
    let Some(_) = next_in(tape, count, at, WORD, WORD) else {
        return false;
    };
    undotted(word_at(text, tape, at))
}

// "::" and a name.
fn attribute(text: &[u8], tape: &[u32], from: &Start, nodes: &mut [u32]) -> Result<Taken, Refusal>
    requires { Leads (tape_of text.now tape.now) (length nodes.old) (start_of from.now) }
    ensures { Begins (λ T n at. G.named (G.attribute (place_on T at)) (past T n at))
        (tape_of text.now tape.now) (start_of from.now) nodes.old nodes.new result }
{
    let at = from[TOKEN];
    let free = from[NODE];
    let count = from[COUNT];
    if !is_name(text, tape, count, at + 1) {
        return Err(Refusal {
            number: GRAMMAR,
            place: place_at(text, tape, count, at + 1),
        });
    }
    put_attribute(tape, nodes, free, at, at + 1);
    Ok(Taken {
        node: free + 1,
        token: at + 2,
    })
}

// A word: a truth, or what a key begins.
fn word(text: &[u8], tape: &[u32], from: &Start, nodes: &mut [u32]) -> Result<Taken, Refusal>
    requires { Worded (tape_of text.now tape.now) (length nodes.old) (start_of from.now) }
    ensures { Begins (λ T n at. G.worded address (place_on T at) (word_on T at) (past T n at))
        (tape_of text.now tape.now) (start_of from.now) nodes.old nodes.new result }
{
    let at = from[TOKEN];
    let free = from[NODE];
    let bytes = word_at(text, tape, at);
    if same_bytes(bytes, b"true") {
        return truth_node(tape, at, free, true, nodes);
    }
    if same_bytes(bytes, b"false") {
        return truth_node(tape, at, free, false, nodes);
    }
    keyed(text, tape, from, nodes)
}

// A key, or one with "::" and its field, or an address.
fn keyed(text: &[u8], tape: &[u32], from: &Start, nodes: &mut [u32]) -> Result<Taken, Refusal>
    requires { Worded (tape_of text.now tape.now) (length nodes.old) (start_of from.now) }
    ensures { Begins (λ T n at. G.keyed address (place_on T at) (word_on T at) (past T n at))
        (tape_of text.now tape.now) (start_of from.now) nodes.old nodes.new result }
{
    let at = from[TOKEN];
    let free = from[NODE];
    let count = from[COUNT];
    if let Some(_) = next_in(tape, count, at + 1, COLONS, COLONS) {
        return field(text, tape, from, nodes);
    }
    let Some(_) = next_in(tape, count, at + 1, OPENING, OPENING) else {
        return key_node(tape, at, free, nodes);
    };
    let Some(scheme) = addresses::scheme_of(word_at(text, tape, at)) else {
        return key_node(tape, at, free, nodes);
    };
    addressed(text, tape, scheme, from, nodes)
}

// The name after a key and its "::".
fn field(text: &[u8], tape: &[u32], from: &Start, nodes: &mut [u32]) -> Result<Taken, Refusal>
    requires { Worded (tape_of text.now tape.now) (length nodes.old) (start_of from.now) }
    ensures { Begins (λ T n at. G.named (G.field (place_on T at) (word_on T at)) (onward T n (at + 2)))
        (tape_of text.now tape.now) (start_of from.now) nodes.old nodes.new result }
{
    let at = from[TOKEN];
    let free = from[NODE];
    let count = from[COUNT];
    if !is_name(text, tape, count, at + 2) {
        return Err(Refusal {
            number: GRAMMAR,
            place: place_at(text, tape, count, at + 2),
        });
    }
    put_field(tape, nodes, free, at, at + 2);
    Ok(Taken {
        node: free + 1,
        token: at + 3,
    })
}

// The string and the ")" after the word of an address and its "(".
fn addressed(
    text: &[u8],
    tape: &[u32],
    scheme: Scheme,
    from: &Start,
    nodes: &mut [u32],
) -> Result<Taken, Refusal>
    requires { Leads (tape_of text.now tape.now) (length nodes.old) (start_of from.now) }
    ensures { Begins (λ T n at. G.addressed address (addressed.scheme scheme) (place_on T at) (onward T n (at + 2)))
        (tape_of text.now tape.now) (start_of from.now) nodes.old nodes.new result }
{
    let at = from[TOKEN];
    let free = from[NODE];
    let count = from[COUNT];
    let quote = at + 2;
    let Some(_) = next_in(tape, count, quote, STRING, STRING) else {
        return Err(Refusal {
            number: GRAMMAR,
            place: place_at(text, tape, count, quote),
        });
    };
    let Some(number) = addresses::read(scheme, string_at(text, tape, quote)) else {
        return Err(Refusal {
            number: ADDRESS,
            place: place_at(text, tape, count, quote),
        });
    };
    // "address numerals stay decimal"
    put_number(tape, nodes, free, at, Literal::plain(number));
    close(text, tape, count, free + 1, quote + 1)
}
