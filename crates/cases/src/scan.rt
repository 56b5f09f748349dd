// Places in the file, and what stands there.
ghost use Rattle.std.specs.Prelude.{◌≤◌, ◌≡◌, length};
ghost use Rattle.paper.specs.Numbers.{byte_at};
ghost use Rattle.cases.specs.Places.{StopsAt, part_of, rest_of};

use std::io;

// The byte at an offset, and 0 past the end.
pub(crate) fn byte_at(s: &[u8], at: usize) -> u8
    ensures { result ≡ byte_at s.now at }
{
    s.get(at).copied().unwrap_or(0)
}

// Where the first byte stands, from an offset on, that is at most a limit. A limit of a line's end finds the line's end, one of a blank
// the end of a word, and one of a colon the end of a command, whose letters are above it.
pub(crate) fn scan(s: &[u8], at: usize, limit: u8) -> usize
    requires { at ≤ length s.now }
    ensures { StopsAt s.now at limit result }
{
    for i in at..s.len() {
        if s[i] <= limit {
            return i;
        }
    }
    s.len()
}

// The bytes from an offset up to another; none where these are no offsets of a part.
pub(crate) fn part(s: &[u8], from: usize, to: usize) -> &[u8]
    ensures { result.now ≡ part_of s.now from to }
{
    if s.len() < to {
        return lines::start(s, 0);
    }
    if to < from {
        return lines::start(s, 0);
    }
    &s[from..to]
}

// What stands after the command of a line and a blank, or a colon and a blank.
pub(crate) fn rest_of(file: &[u8], at: usize) -> &[u8]
    requires { at ≤ length file.now }
    ensures { result.now ≡ rest_of file.now at }
{
    let name = scan(file, at, b':');
    let end = scan(file, name, b'\n');
    if byte_at(file, name) == b':' {
        return part(file, name + 2, end);
    }
    part(file, name + 1, end)
}

// Written after a line that is no command, and where a case has a number or bytes that are none, or more than there is room for.
pub(crate) fn not_understood(rt: &impl Print) -> io::Result<()> {
    lines::say(rt, b" not understood\n")
}
