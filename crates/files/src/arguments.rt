// The program's arguments, as the bytes that they are.
ghost use Rattle.std.specs.Prelude.{◌≤◌, length, IfOk};

use std::env::{Env, FillError};
use std::io;
use std::io::Error;

// No path of the system is longer, with C's 0 after it.
pub const MOST_PATH: usize = 4096;

// What is said of an argument that is longer than any path.
pub const TOO_LONG: &[u8] = b"a path that is too long";

// The system's number for a name that is too long.
const ENAMETOOLONG: i32 = 36;

// One more than any program here takes.
const MANY: usize = 7;

// Why an argument that is longer than any path names no file, in the system's words.
pub fn name_too_long() -> Error {
    Error::from_raw_os_error(ENAMETOOLONG)
}

// Whether there is an argument of this number. One that is longer than what is lent for it is there, too.
fn is_there(rt: &impl Env, i: usize) -> bool {
    let mut byte = [0u8; 1];
    !matches!(rt.arg(i, &mut byte), Err(FillError::NotPresent))
}

// How many arguments there are, the program's own name among them; seven for more of them.
pub fn argument_count(rt: &impl Env) -> usize
    ensures { result ≤ 7 }
{
    for i in 0..MANY {
        if !is_there(rt, i) {
            return i;
        }
    }
    MANY
}

// Puts an argument at the start of a room and answers its length, unless it is missing or longer than the room.
pub fn argument(rt: &impl Env, i: usize, room: &mut [u8]) -> io::Result<usize>
    ensures { IfOk result (λ n. n ≤ length room.new) }
{
    rt.arg(i, room).map_err(|_| name_too_long())
}
