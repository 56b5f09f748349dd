// How much of a file is read at a time.
ghost use Rattle.std.specs.Prelude.{◌≤◌, ◌<◌, ◌≡◌};
ghost use Rattle.files.specs.Sizes.{whole_entries};

// How much of a buffer of 65,536 bytes whole entries can fill.
pub fn whole_entries(size: usize) -> usize
    requires { 0 < size }
    ensures { (result ≡ whole_entries size) × (result ≤ 65536) }
{
    65536 - 65536 % size
}
