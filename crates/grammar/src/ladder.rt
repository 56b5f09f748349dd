// The ladder, from the loosest level to the tightest. Whatever rung is asked for, the first operand of the tightest one
// stands first: it is read at once, and the rungs are climbed from there. Each goes on while its operator is the next
// token, any number of operators or one at most, reads what stands after it by the next tighter rung, and passes every
// refusal up. An atom starts the ladder again inside parentheses, after a token and with a level less.
//
// All of them take the tape, where to start, and the nodes.
ghost use Rattle.std.specs.Prelude.{◌≡◌, ◌&&◌, ◌*◌, ◌≤◌, ◌<◌, eqb, length};
ghost use Rattle.tokens.specs.Tape.{tape_of, row_words};
ghost use Rattle.grammar.specs.Ladder as L;
ghost use Rattle.grammar.specs.Reading.{start_of, Ready, Reads, Continues, Finds};

use crate::leaves::{close, leaf};
use crate::steps::{
    COUNT, LEVELS_LEFT, NODE, Rung, Start, TOKEN, Taken, Tighter, again, inside, moved,
};
use crate::store::{put_joined, put_prefixed};
use crate::tape::next_in;
use paper::Refusal;
use tokens::kinds::{AND_ALSO, AT_MOST, EQUAL, IMPLIES, MINUS, NOT, OPENING, OR_ELSE, SEQUEL};

// The lowest and the highest kind of some signs.
#[derive(Clone, Copy)]
struct KindRange(u32, u32);

// The operators of a rung.
fn signs_of(rung: Rung) -> KindRange
    ensures { (result.0 ≡ L.lowest rung) × (result.1 ≡ L.highest rung) }
{
    match rung {
        Rung::Whole => KindRange(SEQUEL, SEQUEL),
        Rung::Sequence => KindRange(SEQUEL, SEQUEL),
        Rung::Implication => KindRange(IMPLIES, IMPLIES),
        Rung::Disjunction => KindRange(OR_ELSE, OR_ELSE),
        Rung::Conjunction => KindRange(AND_ALSO, AND_ALSO),
        Rung::Comparison => KindRange(EQUAL, AT_MOST),
    }
}

// Whether an operator of a rung is the token of an index, and of which kind.
fn operator_at(tape: &[u32], rung: Rung, count: usize, at: usize) -> Option<u32>
    requires { count * row_words ≤ length tape.now }
    ensures { Finds tape.now count at (L.lowest rung) (L.highest rung) result }
{
    let signs = signs_of(rung);
    next_in(tape, count, at, signs.0, signs.1)
}

// At the top the text may also end after a ";".
fn ends_after(rung: Rung, at: usize, count: usize) -> bool
    ensures { result ≡ (L.may_end rung && eqb at count) }
{
    match rung {
        Rung::Whole => at == count,
        Rung::Sequence => false,
        Rung::Implication => false,
        Rung::Disjunction => false,
        Rung::Conjunction => false,
        Rung::Comparison => false,
    }
}

// Whether a rung has one operator at most.
fn at_most_once(rung: Rung) -> bool
    ensures { result ≡ L.at_most_once rung }
{
    match rung {
        Rung::Whole => false,
        Rung::Sequence => false,
        Rung::Implication => true,
        Rung::Disjunction => false,
        Rung::Conjunction => false,
        Rung::Comparison => true,
    }
}

// What reads the operands of a rung: the next tighter one, and prefix operators at last.
fn tighter(rung: Rung) -> Tighter
    ensures { result ≡ L.tighter rung }
{
    match rung {
        Rung::Whole => Tighter::Rung(Rung::Implication),
        Rung::Sequence => Tighter::Rung(Rung::Implication),
        Rung::Implication => Tighter::Rung(Rung::Disjunction),
        Rung::Disjunction => Tighter::Rung(Rung::Conjunction),
        Rung::Conjunction => Tighter::Rung(Rung::Comparison),
        Rung::Comparison => Tighter::Prefix,
    }
}

// How far up the ladder a rung is.
fn height(rung: Rung) -> u8
    ensures { result ≡ L.height rung }
{
    match rung {
        Rung::Whole => 5,
        Rung::Sequence => 5,
        Rung::Implication => 4,
        Rung::Disjunction => 3,
        Rung::Conjunction => 2,
        Rung::Comparison => 1,
    }
}

// The next looser rung on the way up to another. Next to an implication that is the goal itself.
fn looser(rung: Rung, goal: Rung) -> Rung
    ensures { result ≡ L.looser goal rung }
{
    match rung {
        Rung::Whole => goal,
        Rung::Sequence => goal,
        Rung::Implication => goal,
        Rung::Disjunction => Rung::Implication,
        Rung::Conjunction => Rung::Disjunction,
        Rung::Comparison => Rung::Conjunction,
    }
}

// An operand of a rung. What opens no level is a leaf, and read as one at once.
#[cycle(atom_chain_further_operand_prefix)]
fn operand(
    text: &[u8],
    tape: &[u32],
    rung: Rung,
    from: &Start,
    nodes: &mut [u32],
) -> Result<Taken, Refusal>
    requires { Ready (tape_of text.now tape.now) (length nodes.old) (start_of from.now) }
    ensures { Reads (L.operand_of rung) (tape_of text.now tape.now) (start_of from.now) nodes.old nodes.new result }
{
    let Tighter::Rung(next) = tighter(rung) else {
        let Some(_) = next_in(tape, from[COUNT], from[TOKEN], NOT, OPENING) else {
            return leaf(text, tape, from, nodes);
        };
        return prefix(text, tape, from, nodes);
    };
    chain(text, tape, next, from, nodes)
}

// Operands with operators of a rung between them, joined from the left: what the tightest rung reads first is climbed
// from, rung after rung.
#[cycle(atom_chain_further_operand_prefix)]
pub(crate) fn chain(
    text: &[u8],
    tape: &[u32],
    rung: Rung,
    from: &Start,
    nodes: &mut [u32],
) -> Result<Taken, Refusal>
    requires { Ready (tape_of text.now tape.now) (length nodes.old) (start_of from.now) }
    ensures { Reads (L.rung_of rung) (tape_of text.now tape.now) (start_of from.now) nodes.old nodes.new result }
{
    let first = operand(text, tape, Rung::Comparison, from, nodes);
    let Ok(read) = first else {
        return again(first);
    };
    let mut level = Rung::Comparison;
    let mut past = read.node;
    let mut next = read.token;
    loop {
        let onward = moved(from, next, past);
        let more = further(text, tape, level, &onward, nodes);
        let Ok(read) = more else {
            return again(more);
        };
        if height(level) == height(rung) {
            return Ok(Taken {
                node: read.node,
                token: read.token,
            });
        }
        level = looser(level, rung);
        past = read.node;
        next = read.token;
    }
}

// What a rung makes of its first operand, the tree before the start: it goes on while its operator is the next token.
#[cycle(atom_chain_further_operand_prefix)]
fn further(
    text: &[u8],
    tape: &[u32],
    rung: Rung,
    from: &Start,
    nodes: &mut [u32],
) -> Result<Taken, Refusal>
    requires node_nonzero { 0 < (start_of from.now).node }
    requires ready { Ready (tape_of text.now tape.now) (length nodes.old) (start_of from.now) }
    ensures { Continues (L.operand_of rung) (L.rung_of rung) (tape_of text.now tape.now) (start_of from.now) nodes.old nodes.new result }
{
    let mut past = from[NODE];
    let mut next = from[TOKEN];
    loop {
        let Some(sign) = operator_at(tape, rung, from[COUNT], next) else {
            return Ok(Taken {
                node: past,
                token: next,
            });
        };
        if ends_after(rung, next + 1, from[COUNT]) {
            return Ok(Taken {
                node: past,
                token: next + 1,
            });
        }
        let onward = moved(from, next + 1, past);
        let more = operand(text, tape, rung, &onward, nodes);
        let Ok(read) = more else {
            return again(more);
        };
        let end = read.node;
        put_joined(tape, nodes, end, sign, next, past - 1);
        if at_most_once(rung) {
            return Ok(Taken {
                node: end + 1,
                token: read.token,
            });
        }
        past = end + 1;
        next = read.token;
    }
}

// An operand after any number of "!" and "-". With no level left, only a leaf.
#[cycle(atom_chain_further_operand_prefix)]
fn prefix(text: &[u8], tape: &[u32], from: &Start, nodes: &mut [u32]) -> Result<Taken, Refusal>
    requires { Ready (tape_of text.now tape.now) (length nodes.old) (start_of from.now) }
    ensures { Reads L.prefix (tape_of text.now tape.now) (start_of from.now) nodes.old nodes.new result }
{
    if from[LEVELS_LEFT] == 0 {
        return leaf(text, tape, from, nodes);
    }
    let at = from[TOKEN];
    let Some(sign) = next_in(tape, from[COUNT], at, NOT, MINUS) else {
        return atom(text, tape, from, nodes);
    };
    let onward = inside(from);
    let operand = prefix(text, tape, &onward, nodes);
    let Ok(read) = operand else {
        return again(operand);
    };
    put_prefixed(tape, nodes, read.node, sign, at);
    Ok(Taken {
        node: read.node + 1,
        token: read.token,
    })
}

// A leaf, or a parenthesis.
#[cycle(atom_chain_further_operand_prefix)]
fn atom(text: &[u8], tape: &[u32], from: &Start, nodes: &mut [u32]) -> Result<Taken, Refusal>
    requires levels_nonzero { 0 < (start_of from.now).levels }
    requires ready { Ready (tape_of text.now tape.now) (length nodes.old) (start_of from.now) }
    ensures { Reads L.atom (tape_of text.now tape.now) (start_of from.now) nodes.old nodes.new result }
{
    let Some(_) = next_in(tape, from[COUNT], from[TOKEN], OPENING, OPENING) else {
        return leaf(text, tape, from, nodes);
    };
    let onward = inside(from);
    let inner = chain(text, tape, Rung::Sequence, &onward, nodes);
    let Ok(read) = inner else {
        return again(inner);
    };
    close(text, tape, from[COUNT], read.node, read.token)
}
