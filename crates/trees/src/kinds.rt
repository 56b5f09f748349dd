// The number of each node's kind, the first of its words. Only this crate knows them.
pub const TRUTH: u32 = 0;

pub const NUMBER: u32 = 1;

pub const KEY: u32 = 2;

pub const FIELD: u32 = 3;

pub const ATTRIBUTE: u32 = 4;

// From here on operators: two before their operand,
pub const NOT: u32 = 5;

pub const MINUS: u32 = 6;

// joins,
pub const SEQUEL: u32 = 7;

pub const IMPLIES: u32 = 8;

pub const OR: u32 = 9;

pub const AND: u32 = 10;

// and comparisons.
pub const EQUAL: u32 = 11;

pub const UNEQUAL: u32 = 12;

pub const GREATER: u32 = 13;

pub const AT_LEAST: u32 = 14;

pub const LESS: u32 = 15;

pub const AT_MOST: u32 = 16;
