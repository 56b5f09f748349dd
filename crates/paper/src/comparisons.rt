// The numbers of document 01's comparisons.
pub const EQUAL: u8 = 0;

pub const UNEQUAL: u8 = 1;

pub const GREATER: u8 = 2;

pub const AT_LEAST: u8 = 3;

pub const LESS: u8 = 4;

pub const AT_MOST: u8 = 5;
