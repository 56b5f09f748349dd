// Bytes, one piece after the other.
ghost use Rattle.printing.specs.Writing.{Wrote};

use spelling::bytes;

// Writes bytes from an offset on, all of them or none, and tells the offset after them. Where they do not fit, it is one past the end, from
// where nothing fits.
pub fn write(s: &[u8], from: usize, out: &mut [u8]) -> usize
    ensures { Wrote out.old from s.now out.new result }
{
    if out.len() < from {
        return from;
    }
    if out.len() - from < s.len() {
        return out.len() + 1;
    }
    bytes::copy(s, from, out);
    from + s.len()
}
