// The tree of a contract: its bytes, one after another, then its end.
ghost use Rattle.std.specs.Prelude.{◌≡◌, List, ℕ, ◌*◌, ◌≤◌, ◌<◌, length, true};
ghost use Rattle.paper.specs.Keys.{records_in};
ghost use Rattle.paper.specs.Grammar as G;
ghost use Rattle.paper.specs.Grammar.{Tree};
ghost use Rattle.paper.specs.Contract as paper;
ghost use Rattle.drafting.specs.Pieces.{Holds};
ghost use Rattle.drafting.specs.Assertions.{Named};
ghost use Rattle.drafting.specs.Fronts.{most_nodes, Represents, Ready};
ghost use Rattle.drafting.specs.Drafts.{Measured, Drafts};

use crate::fronts::{Front, put_closed};
use crate::pieces::Piece;
use crate::sizes::{MOST_LEVELS, MOST_TOKENS};
use trees::Node;

// A tree of closed clauses and one of the clause behind them, each within the limit of tokens, with an assertion and its link.
const NODES: usize = 2 * MOST_TOKENS + 8;

// The words of so many nodes.
pub const NODE_WORDS: usize = NODES * Node::WORDS;

// Why a contract has no tree.
#[derive(Clone, Copy)]
pub enum Undrafted {
    // It has a fault at a byte, or at its end.
    Fault(usize),
    // Its text is over the limit of tokens or of levels.
    Over,
}

// The node of its root.
fn measured(p: Piece) -> Result<usize, Undrafted>
    requires { 0 < p.end }
    ensures { (list ns : List ℕ) (t : Tree) → Holds list ns 0 p t → Measured list ns t result }
{
    if MOST_TOKENS < p.size.tokens || MOST_LEVELS < p.size.levels {
        return Err(Undrafted::Over);
    }
    Ok(p.end - 1)
}

// Of an empty contract.
fn empty(nodes: &mut [u32]) -> Result<usize, Undrafted>
    requires { most_nodes * 8 ≤ length nodes.old }
    ensures { (list : List ℕ) → Measured list nodes.new (G.truth 0 true) result }
{
    trees::put_truth(nodes, 0, 0, true);
    Ok(0)
}

// At the end of a contract nothing may wait.
fn ended(front: Front, at: usize, nodes: &mut [u32]) -> Result<usize, Undrafted>
    requires { (list table : List ℕ) × Ready list table nodes.old front }
    ensures { (list table : List ℕ) (f : paper.Front) → Represents list table nodes.old front f
        → Drafts list table nodes.new (paper.ended at f f.conjunction f.comparator) result }
{
    if front.opened.is_some() || front.link.is_some() {
        return Err(Undrafted::Fault(at));
    }
    let Some(c) = front.clause else {
        return empty(nodes);
    };
    measured(put_closed(front.closed, c, nodes))
}

// By names that passed their check, and nodes that are lent.
pub fn draft(
    contract: &[u8],
    table: &[u64],
    names: &[u8],
    nodes: &mut [u32],
) -> Result<usize, Undrafted>
    requires { Named names.now × (most_nodes * 8 ≤ length nodes.old) }
    ensures { Drafts names.now table.now nodes.new
        (paper.clauses (records_in names.now) (length table.now) contract.now) result }
{
    let mut front = Front::start();
    for (i, byte) in contract.iter().enumerate() {
        let Some(next) = front.with_byte(*byte, names, table, nodes) else {
            return Err(Undrafted::Fault(i));
        };
        front = next;
    }
    ended(front, contract.len(), nodes)
}
