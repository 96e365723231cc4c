// String literals: what their scans share, and the raw text of h'..' and b64'..'.
#![tactic(auto)]

ghost use Rattle.std.specs.Prelude.{◌≡◌, ◌∷◌, [], drop};
ghost use Rattle.notation.specs.Literals.{body};
ghost use Rattle.notation.specs.Reading.{marked};
ghost use Rattle.literal_body.specs.LiteralAnswers.{digit_number, HexThere, Raw, Put, BodyByte};

pub use scanning::class::is_blank;
use scanning::run::text_run;

// What a scan found: where the text goes on, and how many bytes the content has.
#[derive(Drop)]
pub struct LiteralScan {
    pub next: usize,
    pub size: usize,
}

// How far a literal is read: the place in its text, the place in the buffer behind what is written, and how many bytes were made.
#[derive(Drop)]
pub struct Progress {
    pub next: usize,
    pub pos: usize,
    pub size: usize,
}

// What hex_value answers where no digit stands. Callers compare the value with a radix, and no radix is above this: an Option would be one test more.
pub const NO_DIGIT: u8 = 99;

// Whether a byte is a hexadecimal digit. The compiler makes one table of this and of hex_value: of two arms, one of every other digit, as neighbours in one
// arm are a range to it, and of ranges it makes a chain of tests.
fn is_hex(b: u8) -> bool
    ensures { HexThere b result }
{
    match b {
        b'0' | b'2' | b'4' | b'6' | b'8' | b'A' | b'C' | b'E' | b'a' | b'c' | b'e' => true,
        b'1' | b'3' | b'5' | b'7' | b'9' | b'B' | b'D' | b'F' | b'b' | b'd' | b'f' => true,
        _ => false,
    }
}

// The value of a hexadecimal digit. Digits and letters are mixed in every way, and a branch on them would be foretold badly: so there is none.
pub fn hex_value(b: u8) -> u8
    ensures { result ≡ digit_number b }
{
    if is_hex(b) {
        b % 16 + b / 64 * 9
    } else {
        NO_DIGIT
    }
}

// Writes a byte, if it fits, and answers the place behind it.
pub fn put(out: &mut [u8], p: usize, v: u8) -> usize
    ensures { Put out.old out.new p result (v ∷ []) }
{
    if out.len() <= p {
        return p;
    }
    out[p] = v;
    p + 1
}

// Writes two bytes in a row.
pub fn put_two(out: &mut [u8], p: usize, a: u8, b: u8) -> usize
    ensures { Put out.old out.new p result (a ∷ b ∷ []) }
{
    let q = put(out, p, a);
    put(out, q, b)
}

// What a byte is in a raw text.
#[derive(Clone, Copy)]
enum RawByte {
    Stands,
    Ends,
    Refused,
}

fn body_byte(b: u8) -> RawByte
    ensures { BodyByte b result }
{
    match b {
        b'\'' => RawByte::Ends,
        b'\\' => RawByte::Refused,
        _ if 0x20 <= b || is_blank(b) => RawByte::Stands,
        _ => RawByte::Refused,
    }
}

// The raw text of an encoded literal, up to its closing quote.
pub fn scan_body(text: &[u8], at: usize) -> Option<LiteralScan>
    ensures { Raw text.now at result (body (drop at (marked text.now))) }
{
    let mut i = at;
    while i < text.len() {
        let stop = text_run(text, i, b'\'', b'\\');
        match body_byte(*text.get(stop)?) {
            RawByte::Stands => i = stop + 1,
            RawByte::Ends => {
                return Some(LiteralScan {
                    next: stop + 1,
                    size: stop - at,
                });
            }
            RawByte::Refused => return None,
        }
    }
    None
}
