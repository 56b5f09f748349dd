// The numbers of document 01's table of refusals, and after them those of document 02. include/pollux.h has the same names, after
// POLLUX_, and says where each lies.
pub const TEXT_TOO_LONG: u8 = 1;

pub const LIST_LENGTH: u8 = 2;

pub const KEY_LAYOUT: u8 = 3;

pub const KEY_REPEATED: u8 = 4;

pub const NO_TOKEN: u8 = 5;

pub const NUMERAL_LARGE: u8 = 6;

pub const TOKENS_MANY: u8 = 7;

pub const GRAMMAR: u8 = 8;

pub const LEVELS_MANY: u8 = 9;

pub const ADDRESS: u8 = 10;

pub const KEY_UNKNOWN: u8 = 11;

// Or an attribute.
pub const FIELD_UNKNOWN: u8 = 12;

pub const OPERAND_TYPES: u8 = 13;

pub const NOT_BOOL: u8 = 14;

pub const BUFFER_SHORT: u8 = 15;

pub const BLOCKS_LENGTH: u8 = 16;

pub const BLOCK_LAYOUT: u8 = 17;

pub const INSTRUCTION: u8 = 18;

pub const ENTRY_LENGTH: u8 = 19;

pub const ENTRY_RULE: u8 = 20;

pub const PRINT_LONG: u8 = 21;

pub const OCTAL: u8 = 22;

pub const BITS_LOST: u8 = 23;

pub const CONTRACT: u8 = 24;

pub const ENTRIES_MANY: u8 = 25;
