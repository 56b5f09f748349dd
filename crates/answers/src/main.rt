// Requests on standard input, and for each a line on standard output: for pipes, and for the comparison with the reference.
//
// A request is a byte for the call (1 read, 2 check, 3 judge, 4 translate, 5 load, 6 run, 7 print, 8 explain, 9 summarize, 10 recheck,
// 11 fix_octal, 12 pact, 13 compare, 14 count, 15 run_all) and three inputs, each a length of four bytes, big-endian, and its bytes. An input over 65,536
// bytes gives `too long`, and its bytes are passed over; a request that the input's end cuts gives `cut`; an unknown call gives `unknown`. Calls 7
// and 11 have their buffer as third input, as call 4 has, and none as second. Call 12 has a contract, the names of its inputs, and a table with a
// buffer (tables.rt). After these four stands the Adler-32 sum of the whole buffer, and after a part or a key that is shown that of the
// piece. After a summary stands how many keys are named. A recheck has a change of an entry as third input (changes.rt). A third input that
// is shorter than what it is made of gives `malformed`. Call 14 has entries laid end to end as third input, and call 15 bytes for answers before
// them (entries.rt), whose sum as they stand after the call follows what it answers.
#![tactic(auto)]

mod adler;
mod calls;
mod changes;
mod entries;
mod framing;
mod tables;

ghost use Rattle.std.specs.Prelude.{◌<◌, length};

use crate::framing::Untaken;
use files::read_full;
use std::io;
use std::io::Read;

// No input is longer.
const ROOM: usize = 65_536;

// Whether another request may follow.
fn request(
    rt: &impl Print,
    input: &mut impl Read,
    first: &mut [u8],
    second: &mut [u8],
    third: &mut [u8],
) -> io::Result<bool>
    requires { (0 < length first.old) × (0 < length second.old) × (0 < length third.old) }
{
    let mut call = [0u8; 1];
    if read_full(input, &mut call) == 0 {
        return Ok(false);
    }
    let a = framing::take_input(input, first);
    let b = framing::take_input(input, second);
    let c = framing::take_input(input, third);
    if c == Err(Untaken::Cut) {
        lines::say(rt, b"cut\n")?;
        return Ok(false);
    }
    let (Ok(x), Ok(y), Ok(z)) = (a, b, c) else {
        return framing::too_long(rt);
    };
    calls::answer(
        rt,
        call[0],
        lines::start(first, x),
        lines::start(second, y),
        third,
        z,
    )?;
    Ok(true)
}

fn main(rt: HostRuntime) -> io::Result<()> {
    let mut input = rt.reader();
    let mut first = [0u8; ROOM];
    let mut second = [0u8; ROOM];
    let mut third = [0u8; ROOM];
    for _ in 0..u64::MAX {
        if !request(&rt, &mut input, &mut first, &mut second, &mut third)? {
            return Ok(());
        }
    }
    Ok(())
}
