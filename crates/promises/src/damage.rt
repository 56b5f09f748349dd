// Damage to blocks that load.
ghost use Rattle.paper.specs.DamageDetected.{CutRefused, ByteSeen, BitSeen};

// Blocks cut at a block's end do not load.
pub fn cut_blocks_are_refused()
    ensures { CutRefused }
{}

// Blocks with one byte changed do not load.
pub fn a_changed_byte_is_seen()
    ensures { ByteSeen }
{}

// Blocks with one bit changed do not load.
pub fn a_changed_bit_is_seen()
    ensures { BitSeen }
{}
