// A Pact contract into a text: the refusals of its names, then 24 of its table and of its bytes, then 21.
ghost use Rattle.std.specs.Prelude.{◌≡◌, ◌+◌, ◌*◌, ◌≤◌, length};
ghost use Rattle.paper.specs.Pact.{most_indices};
ghost use Rattle.paper.specs.Print.{print};
ghost use Rattle.paper.specs.Promised.{DraftPromised};
ghost use Rattle.trees.specs.Standing.{tree_at};
ghost use Rattle.drafting.specs.Assertions.{Named};
ghost use Rattle.drafting.specs.Fronts.{most_nodes};
ghost use Rattle.valve.specs.Lent.{LentDraft};

use crate::style;
use drafting::Undrafted;
use paper::{Place, Refusal, refused};

// How many user numbers there may be.
const MOST_USERS: usize = 16;

// By names that passed, a table that is not too long, and nodes that are lent.
fn pact_in(
    contract: &[u8],
    table: &[u64],
    names: &[u8],
    nodes: &mut [u32],
    buffer: &mut [u8],
) -> Result<usize, Refusal>
    requires named { Named names.now × (length table.now ≤ most_indices) }
    requires most_nodes_in_bounds { most_nodes * 8 ≤ length nodes.old }
    ensures { DraftPromised contract.now table.now names.now buffer.old (record { answer = result; buffer = buffer.new }) }
{
    match drafting::draft(contract, table, names, nodes) {
        Ok(root) => style::lend_print(names, nodes, root, buffer),
        Err(Undrafted::Fault(at)) => Err(Refusal {
            number: refused::CONTRACT,
            place: Place::Contract(at),
        }),
        Err(Undrafted::Over) => Err(Refusal {
            number: refused::PRINT_LONG,
            place: Place::Buffer(buffer.len()),
        }),
    }
}

fn pact_named(
    contract: &[u8],
    table: &[u64],
    names: &[u8],
    buffer: &mut [u8],
) -> Result<usize, Refusal>
    requires { Named names.now }
    ensures { DraftPromised contract.now table.now names.now buffer.old (record { answer = result; buffer = buffer.new }) }
{
    if MOST_USERS < table.len() {
        return Err(Refusal {
            number: refused::CONTRACT,
            place: Place::Table(MOST_USERS),
        });
    }
    let mut nodes = [0u32; drafting::NODE_WORDS];
    pact_in(contract, table, names, &mut nodes, buffer)
}

// The length of the text, which stands at the front of the buffer. Every later byte of the buffer stays, and all of it on a refusal.
pub fn pact(
    contract: &[u8],
    table: &[u64],
    names: &[u8],
    buffer: &mut [u8],
) -> Result<usize, Refusal>
    ensures { DraftPromised contract.now table.now names.now buffer.old (record { answer = result; buffer = buffer.new }) }
{
    keys::check_names(names)?;
    pact_named(contract, table, names, buffer)
}
