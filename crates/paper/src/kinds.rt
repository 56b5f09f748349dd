// The numbers of document 01's kinds of keys.
pub const EXACT: u8 = 0;

pub const TERNARY: u8 = 1;

pub const LPM: u8 = 2;

pub const RANGE: u8 = 3;

pub const OPTIONAL: u8 = 4;
