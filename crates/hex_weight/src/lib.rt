// The byte that two hexadecimal digits side by side make, by a table of what each adds to it.
#![tactic(auto)]

ghost use Rattle.std.specs.Prelude.{◌+◌, ◌≤◌, length};
ghost use Rattle.hex_weight.specs.Weights.{Weighs, PairThere};

// What a pair weighs at least in which not both bytes are digits.
pub const NO_PAIR: u32 = 256;

// What some bytes weigh that are no digits. With so many arms the table has a row for every byte, and none is tested before it is looked up.
const NO_DIGIT: u32 = 512;

// What a byte adds to a pair. It is called in one place, so that it is inlined there and becomes a table.
#[tactic(auto, unfolding(crate::specs::Weights::pair_weight, notation::specs::Numbers::is_digit, notation::specs::Numbers::digit_value, cbor::specs::Utf8::is_in))]
fn weight(b: u8) -> u32
    ensures { Weighs b result }
{
    match b {
        0x30 => 0,
        0x31 => 1,
        0x32 => 2,
        0x33 => 3,
        0x34 => 4,
        0x35 => 5,
        0x36 => 6,
        0x37 => 7,
        0x38 => 8,
        0x39 => 9,
        0x41 => 10,
        0x42 => 11,
        0x43 => 12,
        0x44 => 13,
        0x45 => 14,
        0x46 => 15,
        0x61 => 10,
        0x62 => 11,
        0x63 => 12,
        0x64 => 13,
        0x65 => 14,
        0x66 => 15,
        0x00 => NO_DIGIT,
        0x01 => NO_DIGIT,
        0x02 => NO_DIGIT,
        0x03 => NO_DIGIT,
        0x04 => NO_DIGIT,
        0x05 => NO_DIGIT,
        0x06 => NO_DIGIT,
        0x07 => NO_DIGIT,
        0x08 => NO_DIGIT,
        0x09 => NO_DIGIT,
        0x0a => NO_DIGIT,
        0x0b => NO_DIGIT,
        0x0c => NO_DIGIT,
        0x0d => NO_DIGIT,
        0x0e => NO_DIGIT,
        0x0f => NO_DIGIT,
        0x10 => NO_DIGIT,
        0x11 => NO_DIGIT,
        0x12 => NO_DIGIT,
        0x13 => NO_DIGIT,
        0x14 => NO_DIGIT,
        0x15 => NO_DIGIT,
        0x16 => NO_DIGIT,
        0x17 => NO_DIGIT,
        0x18 => NO_DIGIT,
        0x19 => NO_DIGIT,
        0x1a => NO_DIGIT,
        0x1b => NO_DIGIT,
        0x1c => NO_DIGIT,
        0x1d => NO_DIGIT,
        0x1e => NO_DIGIT,
        0x1f => NO_DIGIT,
        0x20 => NO_DIGIT,
        0x21 => NO_DIGIT,
        0x22 => NO_DIGIT,
        0x23 => NO_DIGIT,
        0x24 => NO_DIGIT,
        0x25 => NO_DIGIT,
        0x26 => NO_DIGIT,
        0x27 => NO_DIGIT,
        0x28 => NO_DIGIT,
        0x29 => NO_DIGIT,
        0x2a => NO_DIGIT,
        0x2b => NO_DIGIT,
        0x2c => NO_DIGIT,
        0x2d => NO_DIGIT,
        0x2e => NO_DIGIT,
        0x2f => NO_DIGIT,
        0x3a => NO_DIGIT,
        0x3b => NO_DIGIT,
        0x3c => NO_DIGIT,
        0x3d => NO_DIGIT,
        0x3e => NO_DIGIT,
        0x3f => NO_DIGIT,
        0x40 => NO_DIGIT,
        0x47 => NO_DIGIT,
        0x48 => NO_DIGIT,
        0x49 => NO_DIGIT,
        0x4a => NO_DIGIT,
        0x4b => NO_DIGIT,
        0x4c => NO_DIGIT,
        0x4d => NO_DIGIT,
        0x4e => NO_DIGIT,
        0x4f => NO_DIGIT,
        0x50 => NO_DIGIT,
        0x51 => NO_DIGIT,
        0x52 => NO_DIGIT,
        0x53 => NO_DIGIT,
        0x54 => NO_DIGIT,
        0x55 => NO_DIGIT,
        0x56 => NO_DIGIT,
        0x57 => NO_DIGIT,
        0x58 => NO_DIGIT,
        0x59 => NO_DIGIT,
        0x5a => NO_DIGIT,
        0x5b => NO_DIGIT,
        0x5c => NO_DIGIT,
        0x5d => NO_DIGIT,
        0x5e => NO_DIGIT,
        0x5f => NO_DIGIT,
        0x60 => NO_DIGIT,
        0x7f => NO_DIGIT,
        0x80 => NO_DIGIT,
        _ => NO_PAIR,
    }
}

// The byte that two digits side by side make.
pub fn pair(text: &[u8], at: usize) -> u32
    requires { at + 2 ≤ length text.now }
    ensures { PairThere text.now at result }
{
    let mut w: u32 = 0;
    for k in 0..2 {
        w = w * 16 + weight(text[at + k]);
    }
    w
}
