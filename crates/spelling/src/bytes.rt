// Plain bytes, and their classes.
ghost use Rattle.std.specs.Prelude.{◌≡◌, ◌+◌, ◌≤◌, length};
ghost use Rattle.std.proofs.lemmas.List.Edits.{sets};
ghost use Rattle.paper.specs.Tokens as paper;
ghost use Rattle.paper.specs.Tokens.{same_bytes, is_digit, is_blank, digit_of};
ghost use Rattle.paper.specs.Keys.{all_zero};

// The bases of the digits in addresses.
pub const DECIMAL: u8 = 10;

pub const HEX: u8 = 16;

// Whether a byte lies between two others, both of them included.
pub fn within(low: u8, high: u8, byte: u8) -> bool
    ensures { result ≡ paper.within low high byte }
{
    low <= byte && byte <= high
}

// Whether two slices hold the same bytes.
pub fn same_bytes(a: &[u8], b: &[u8]) -> bool
    ensures { result ≡ same_bytes a.now b.now }
{
    a == b
}

// Whether every byte is zero. All of them are looked at, whatever the first ones are: with no way out of the loop the compiler takes
// many bytes at a time.
pub fn all_zero(s: &[u8]) -> bool
    ensures { result ≡ all_zero s.now }
{
    s.iter().fold(0, |any, byte| any | *byte) == 0
}

// Copies bytes to an offset; every other byte stays. A loop, and no `copy_from_slice`, for which
// the archive would need `memmove`.
pub fn copy(s: &[u8], at: usize, out: &mut [u8])
    requires { at + length s.now ≤ length out.old }
    ensures { out.new ≡ sets out.old at s.now }
{
    for i in 0..s.len() {
        out[at + i] = s[i];
    }
}

// Whether a byte is a decimal digit.
pub fn is_digit(byte: u8) -> bool
    ensures { result ≡ is_digit byte }
{
    matches!(byte, b'0'..=b'9')
}

// Whether a byte is a blank: space, tab, CR or LF.
pub fn is_blank(byte: u8) -> bool
    ensures { result ≡ is_blank byte }
{
    byte == b' ' || byte == b'\t' || byte == b'\r' || byte == b'\n'
}

// What a digit counts, in either case of a letter; 16, the digit of no base, for any other byte.
pub fn digit_of(byte: u8) -> u8
    ensures { result ≡ digit_of byte }
{
    match byte {
        b'0'..=b'9' => byte - b'0',
        b'a'..=b'f' => byte - b'a' + 10,
        b'A'..=b'F' => byte - b'A' + 10,
        _ => 16,
    }
}
