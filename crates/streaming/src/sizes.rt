// Sizes and lengths of entries that stand end to end.
ghost use Rattle.std.specs.Prelude.{◌≡◌, ◌<◌};
ghost use Rattle.streaming.specs.Sizes.{whole_of};

// A file of fewer than 2^63 bytes is read in fewer turns of 65,536 bytes.
pub(crate) const TURNS: usize = 1 << 47;

// The whole entries at the start of some bytes.
pub(crate) fn whole_of(entries: &[u8], size: usize) -> &[u8]
    requires { 0 < size }
    ensures { result.now ≡ whole_of size entries.now }
{
    let to = entries.len() - entries.len() % size;
    &entries[..to]
}
