// The forms of string literals.

// ".."
pub const QUOTED: u8 = 0;
// '..'
pub const APOSTROPHED: u8 = 1;
// h'..'
pub const HEX: u8 = 2;
// b64'..'
pub const BASE64: u8 = 3;
