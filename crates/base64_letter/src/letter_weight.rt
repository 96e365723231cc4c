// What a letter of base64 text adds to the word of four letters side by side, by a table.
ghost use Rattle.std.specs.Prelude.{◌≡◌, ◌+◌, ◌-◌};
ghost use Rattle.base64_letter.specs.LetterAnswers.{Weighs};

// What four letters weigh at least of which one has no value.
pub const NO_WORD: u64 = 0x100_0000;

// What some bytes weigh that have no value: rows of the table that differ from the others are what makes it one.
const NO_LETTER: u64 = 0x200_0000;

// A bit above those of a byte.
const ABOVE: u64 = 0x100;

// The number of a byte in the table. With the bit above it, and with so many arms, the table begins at the first byte and has a row for each: none is tested or changed before it is looked up.
pub fn row_of(b: u8) -> u64
    ensures { result ≡ b + 0x100 }
{
    b as u64 + ABOVE
}

// What a letter adds to a word. It is called in one place, so that it is inlined there and becomes a table.
#[tactic(auto, unfolding(crate::specs::LetterAnswers::sextet_weight, notation::specs::Literals::sextet_at, cbor::specs::Utf8::is_in))]
pub fn weight(row: u64) -> u64
    ensures { Weighs (row - 0x100) result }
{
    match row {
        0x141 => 0,
        0x142 => 1,
        0x143 => 2,
        0x144 => 3,
        0x145 => 4,
        0x146 => 5,
        0x147 => 6,
        0x148 => 7,
        0x149 => 8,
        0x14a => 9,
        0x14b => 10,
        0x14c => 11,
        0x14d => 12,
        0x14e => 13,
        0x14f => 14,
        0x150 => 15,
        0x151 => 16,
        0x152 => 17,
        0x153 => 18,
        0x154 => 19,
        0x155 => 20,
        0x156 => 21,
        0x157 => 22,
        0x158 => 23,
        0x159 => 24,
        0x15a => 25,
        0x161 => 26,
        0x162 => 27,
        0x163 => 28,
        0x164 => 29,
        0x165 => 30,
        0x166 => 31,
        0x167 => 32,
        0x168 => 33,
        0x169 => 34,
        0x16a => 35,
        0x16b => 36,
        0x16c => 37,
        0x16d => 38,
        0x16e => 39,
        0x16f => 40,
        0x170 => 41,
        0x171 => 42,
        0x172 => 43,
        0x173 => 44,
        0x174 => 45,
        0x175 => 46,
        0x176 => 47,
        0x177 => 48,
        0x178 => 49,
        0x179 => 50,
        0x17a => 51,
        0x130 => 52,
        0x131 => 53,
        0x132 => 54,
        0x133 => 55,
        0x134 => 56,
        0x135 => 57,
        0x136 => 58,
        0x137 => 59,
        0x138 => 60,
        0x139 => 61,
        0x12b => 62,
        0x12d => 62,
        0x12f => 63,
        0x15f => 63,
        0x100 => NO_LETTER,
        0x101 => NO_LETTER,
        0x102 => NO_LETTER,
        0x103 => NO_LETTER,
        0x104 => NO_LETTER,
        0x105 => NO_LETTER,
        0x106 => NO_LETTER,
        0x107 => NO_LETTER,
        0x108 => NO_LETTER,
        0x109 => NO_LETTER,
        0x10a => NO_LETTER,
        0x10b => NO_LETTER,
        0x10c => NO_LETTER,
        0x10d => NO_LETTER,
        0x10e => NO_LETTER,
        0x10f => NO_LETTER,
        0x110 => NO_LETTER,
        0x111 => NO_LETTER,
        0x112 => NO_LETTER,
        0x113 => NO_LETTER,
        0x114 => NO_LETTER,
        0x115 => NO_LETTER,
        0x116 => NO_LETTER,
        0x117 => NO_LETTER,
        0x118 => NO_LETTER,
        0x119 => NO_LETTER,
        0x11a => NO_LETTER,
        0x11b => NO_LETTER,
        0x11c => NO_LETTER,
        0x11d => NO_LETTER,
        0x11e => NO_LETTER,
        0x11f => NO_LETTER,
        0x120 => NO_LETTER,
        0x121 => NO_LETTER,
        0x122 => NO_LETTER,
        0x123 => NO_LETTER,
        0x124 => NO_LETTER,
        0x125 => NO_LETTER,
        0x126 => NO_LETTER,
        0x127 => NO_LETTER,
        0x128 => NO_LETTER,
        0x129 => NO_LETTER,
        0x12a => NO_LETTER,
        0x1ff => NO_LETTER,
        _ => NO_WORD,
    }
}
