// The Adler-32 sum, by which two buffers are compared.
ghost use Rattle.std.specs.Prelude.{◌≡◌};
ghost use Rattle.answers.specs.Adler.{adler};

// The Adler-32 sum of some bytes.
pub(crate) fn adler_of(s: &[u8]) -> u64
    ensures { result ≡ adler 1 0 s.now }
{
    let mut a = 1;
    let mut b = 0;
    for byte in s {
        a = (a + u64::from(*byte)) % 65521;
        b = (b + a) % 65521;
    }
    b * 65536 + a
}
