// Why there is no token, by the numbers of document 01's table.

// There is one.
pub const NO_REFUSAL: u8 = 0;

// What begins no token, or begins one that is not ended.
pub const NOTHING: u8 = 3;

pub const UNKNOWN_WORD: u8 = 4;

pub const DOTS: u8 = 5;

pub const FLOAT: u8 = 6;

pub const OUT_OF_RANGE: u8 = 7;

pub const BAD_CONTENT: u8 = 8;

pub const BAD_INDICATOR: u8 = 9;

pub const TOO_DEEP: u8 = 10;

pub const NOT_ALLOWED: u8 = 11;
