// A contract by its third input, a table of numbers with a buffer: how many numbers the table has in two bytes, the numbers in eight bytes
// each, and the buffer.
ghost use Rattle.std.specs.Prelude.{◌≤◌, ◌<◌, ◌≡◌, length};
ghost use Rattle.paper.specs.Numbers.{number_at};
ghost use Rattle.paper.specs.Drafting.{draft_buffer};
ghost use Rattle.answers.specs.Tables.{drafted_from, after_draft};

use crate::{calls, changes};
use std::io;

// What stands before the numbers.
const HEAD: usize = 2;

fn count_of(third: &[u8]) -> usize
    requires { 2 ≤ length third.now }
    ensures { (result ≡ number_at third.now 0 2) × (result < 65536) }
{
    usize::from(third[0]) * 256 + usize::from(third[1])
}

fn draft(
    rt: &impl Print,
    contract: &[u8],
    table: &[u64],
    names: &[u8],
    buffer: &mut [u8],
) -> io::Result<()>
    ensures { buffer.new ≡ draft_buffer contract.now table.now names.now buffer.old }
{
    lines::say_done(rt, b"drafted", valve::pact(contract, table, names, buffer))?;
    calls::say_sum(rt, buffer)
}

// Drafts into the buffer that begins at an offset.
fn draft_behind(
    rt: &impl Print,
    contract: &[u8],
    table: &[u64],
    names: &[u8],
    third: &mut [u8],
    end: usize,
) -> io::Result<()>
    requires { end ≤ length third.old }
    ensures { third.new ≡ drafted_from end contract.now table.now names.now third.old }
{
    draft(rt, contract, table, names, &mut third[end..])
}

// Drafts into the buffer behind the table, unless the input is shorter than its table.
pub(crate) fn pact(
    rt: &impl Print,
    contract: &[u8],
    names: &[u8],
    third: &mut [u8],
) -> io::Result<()>
    ensures { third.new ≡ after_draft contract.now names.now third.old }
{
    if third.len() < HEAD {
        return changes::malformed(rt);
    }
    let count = count_of(third);
    let end = HEAD + lines::NUMBER * count;
    if third.len() < end {
        return changes::malformed(rt);
    }
    let n = lines::kept(count);
    let table = lines::numbers(third, HEAD, n);
    draft_behind(rt, contract, lines::start(&table, n), names, third, end)
}
