// The kinds of token, as `Token` has them. A token that a single sign begins is of the kind of that sign, its class (`scanning::class`).

// No token: `refusal` says why.
pub const NO_TOKEN: u8 = 0;

pub const UNSIGNED: u8 = 1;

pub const NEGATIVE: u8 = 2;

pub const SIMPLE: u8 = 3;
// String literals.
pub const TEXT: u8 = 4;

pub const BYTES: u8 = 5;
// The opening of a tag.
pub const TAG: u8 = 6;
// The end of the text, and what is behind that.
pub const END: u8 = 21;

pub const BEHIND: u8 = 22;
