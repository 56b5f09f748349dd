// The numbers of document 01's instructions, and the one of document 02.
pub const PUSH_BOOL: u8 = 1;

pub const PUSH_INT: u8 = 2;

pub const PUSH_KEY: u8 = 3;

pub const PUSH_FIELD: u8 = 4;

pub const PUSH_PRIORITY: u8 = 5;

pub const NOT: u8 = 6;

pub const NEGATE: u8 = 7;

pub const CONVERT: u8 = 8;

pub const COMPARE: u8 = 9;

pub const AND: u8 = 10;

pub const OR: u8 = 11;

pub const IMPLIES: u8 = 12;

pub const SKIP: u8 = 13;
