// The initial byte of a head (RFC 8949, section 3): the three high bits are its major type, the five low bits the additional information.

// Major types.
pub const UNSIGNED_INTEGER: u8 = 0;

pub const NEGATIVE_INTEGER: u8 = 1;

pub const BYTE_STRING: u8 = 2;

pub const TEXT_STRING: u8 = 3;

pub const ARRAY: u8 = 4;

pub const MAP: u8 = 5;

pub const TAG: u8 = 6;

pub const SIMPLE_VALUE: u8 = 7;

// Additional information: the argument is in the bytes behind the initial one. What is below is the argument itself.
pub const IN_ONE_BYTE: u8 = 24;

pub const IN_TWO_BYTES: u8 = 25;

pub const IN_FOUR_BYTES: u8 = 26;

pub const IN_EIGHT_BYTES: u8 = 27;

// The last of those that are reserved.
pub(crate) const LAST_RESERVED: u8 = 30;

// The length is indefinite, or it is a break.
pub const INDEFINITE_LENGTH: u8 = 31;

// A break, as the byte that it is.
pub const BREAK: u8 = 0xff;

// A simple value in one byte behind the initial one, and the least that stands there.
pub(crate) const SIMPLE_IN_ONE_BYTE: u8 = 0xf8;

pub(crate) const LEAST_SIMPLE: u64 = 32;
