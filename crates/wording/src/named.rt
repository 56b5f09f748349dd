// What a text names: each key by its name, and ::priority.
ghost use Rattle.std.specs.Prelude.{◌≤◌, ◌/◌, length};
ghost use Rattle.paper.specs.Keys.{record_size};

use crate::say::Things;
use keys::KeyRecord;
use lines::say;
use std::io;

// A line for each of the first n keys whose bit is set, the lowest bit for the first key.
fn say_keys(rt: &impl Print, list: &[u8], set: u32, n: usize) -> io::Result<()>
    requires { n ≤ length list.now / record_size }
{
    let mut rest = set;
    for k in 0..n {
        if rest % 2 == 1 {
            say(rt, b"    ")?;
            say(rt, KeyRecord::name(list, k))?;
            say(rt, b"\n")?;
        }
        rest /= 2;
    }
    Ok(())
}

// A summary of a text against a list: how many keys are named, their names, and whether ::priority is named.
pub fn say_summary(rt: &impl Print, list: &[u8], set: u32, priority: bool) -> io::Result<()> {
    let named = Things(valve::count_keys(set) as usize, "key", "keys");
    println!(rt; "named {named}")?;
    say_keys(rt, list, set, list.len() / KeyRecord::SIZE)?;
    if priority {
        say(rt, b"::priority is named\n")
    } else {
        say(rt, b"::priority is not named\n")
    }
}
