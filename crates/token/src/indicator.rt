// Encoding indicators, and the widths that they give an argument.

// No indicator stands there.
pub const NONE: u8 = 0;
// `_` alone.
pub const INDEFINITE: u8 = 1;

pub const UNKNOWN: u8 = 2;
// The argument in the initial byte, and in 1, 2, 4 and 8 bytes behind it.
pub const IMMEDIATE: u8 = 3;

pub const ONE_BYTE: u8 = 4;

pub const TWO_BYTES: u8 = 5;

pub const FOUR_BYTES: u8 = 6;

pub const EIGHT_BYTES: u8 = 7;
// In place of a width: the indicator does not fit the argument.
pub const MISFIT: u8 = 0;
