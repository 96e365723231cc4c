// The number of a letter of base64 text, by a table.
ghost use Rattle.std.specs.Prelude.{◌≡◌};
ghost use Rattle.notation.specs.Literals.{sextet_at};
ghost use Rattle.base64_letter.specs.LetterAnswers.{sextet_number};

use base64_quantum::PADDING;

// The number of what is in neither alphabet, above that of `=`.
const NO_LETTER: u8 = 65;

// The number of a byte. Letters and digits are mixed in every way, and branches on them would be foretold badly: a table has none.
#[tactic(auto, unfolding(crate::specs::LetterAnswers::sextet_number, notation::specs::Literals::sextet_at, cbor::specs::Utf8::is_in))]
pub fn sextet_value(b: u8) -> u8
    ensures { result ≡ sextet_number (sextet_at b) }
{
    match b {
        0x2b => 62,
        0x2d => 62,
        0x2f => 63,
        0x30 => 52,
        0x31 => 53,
        0x32 => 54,
        0x33 => 55,
        0x34 => 56,
        0x35 => 57,
        0x36 => 58,
        0x37 => 59,
        0x38 => 60,
        0x39 => 61,
        0x3d => PADDING,
        0x41 => 0,
        0x42 => 1,
        0x43 => 2,
        0x44 => 3,
        0x45 => 4,
        0x46 => 5,
        0x47 => 6,
        0x48 => 7,
        0x49 => 8,
        0x4a => 9,
        0x4b => 10,
        0x4c => 11,
        0x4d => 12,
        0x4e => 13,
        0x4f => 14,
        0x50 => 15,
        0x51 => 16,
        0x52 => 17,
        0x53 => 18,
        0x54 => 19,
        0x55 => 20,
        0x56 => 21,
        0x57 => 22,
        0x58 => 23,
        0x59 => 24,
        0x5a => 25,
        0x5f => 63,
        0x61 => 26,
        0x62 => 27,
        0x63 => 28,
        0x64 => 29,
        0x65 => 30,
        0x66 => 31,
        0x67 => 32,
        0x68 => 33,
        0x69 => 34,
        0x6a => 35,
        0x6b => 36,
        0x6c => 37,
        0x6d => 38,
        0x6e => 39,
        0x6f => 40,
        0x70 => 41,
        0x71 => 42,
        0x72 => 43,
        0x73 => 44,
        0x74 => 45,
        0x75 => 46,
        0x76 => 47,
        0x77 => 48,
        0x78 => 49,
        0x79 => 50,
        0x7a => 51,
        _ => NO_LETTER,
    }
}
