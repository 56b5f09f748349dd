// The number of each token's kind, the first word of its row (word_no, numeral_no, string_no and sign_no of specs/Tape.antt).
pub const WORD: u32 = 0;

pub const NUMERAL: u32 = 1;

pub const STRING: u32 = 2;

pub const SEQUEL: u32 = 3;

pub const IMPLIES: u32 = 4;

pub const OR_ELSE: u32 = 5;

pub const AND_ALSO: u32 = 6;

pub const EQUAL: u32 = 7;

pub const UNEQUAL: u32 = 8;

pub const GREATER: u32 = 9;

pub const AT_LEAST: u32 = 10;

pub const LESS: u32 = 11;

pub const AT_MOST: u32 = 12;

pub const NOT: u32 = 13;

pub const MINUS: u32 = 14;

pub const OPENING: u32 = 15;

pub const CLOSING: u32 = 16;

pub const COLONS: u32 = 17;
