// The numbers of document 01's fields of keys.
pub const VALUE: u8 = 0;

pub const MASK: u8 = 1;

pub const PREFIX_LENGTH: u8 = 2;

pub const LOW: u8 = 3;

pub const HIGH: u8 = 4;
