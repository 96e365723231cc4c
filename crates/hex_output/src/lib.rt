// Bytes into a buffer, in hexadecimal: byte by byte, or many where there is room.
#![tactic(auto)]

ghost use Rattle.std.specs.Prelude.{◌≡◌, false, ◌+◌, ◌*◌, ◌/◌, ◌%◌, ◌≤◌, ◌<◌, length};
ghost use Rattle.notation.specs.Printing.{hex_digit_of, hex_byte_of};
ghost use Rattle.text_output.specs.PrintParts.{Prints, content_of};
ghost use Rattle.hex_output.specs.HexLetters.{letters_at};

use text_output::put;

// How much further a letter stands than a digit would.
const FURTHER: u8 = 39;

#[tactic(auto, unfolding(crate::specs::HexLetters::letters_at))]
fn to_letters(v: u8) -> u8
    ensures { result ≡ letters_at v }
{
    if v < 10 { 0 } else { FURTHER }
}

// A digit that is added up, not chosen: of many the compiler makes wider steps so.
fn hex_digit(v: u8) -> u8
    requires { v < 16 }
    ensures { result ≡ hex_digit_of v }
{
    b'0' + v + to_letters(v)
}

fn high_digit(b: u8) -> u8
    ensures { result ≡ hex_digit_of (b / 16) }
{
    hex_digit(b / 16)
}

fn low_digit(b: u8) -> u8
    ensures { result ≡ hex_digit_of (b % 16) }
{
    hex_digit(b % 16)
}

pub fn hex_byte(b: u8, out: &mut [u8], pos: usize) -> usize
    ensures { Prints out.old out.new pos (hex_byte_of b) result }
{
    let p = put(out, pos, high_digit(b));
    put(out, p, low_digit(b))
}

// A byte string in hexadecimal, for which there is room.
pub fn hex_pairs(bytes: &[u8], out: &mut [u8], pos: usize) -> usize
    requires { pos + 2 * length bytes.now ≤ length out.old }
    ensures { Prints out.old out.new pos (content_of false bytes.now) result }
{
    for (i, &b) in bytes.iter().enumerate() {
        out[pos + 2 * i] = high_digit(b);
        out[pos + 2 * i + 1] = low_digit(b);
    }
    pos + 2 * bytes.len()
}
