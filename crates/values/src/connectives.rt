// The numbers by which connectives are held.
pub const BOTH: u8 = 0;

pub const EITHER: u8 = 1;

// If the first, then the second.
pub const IF_THEN: u8 = 2;
