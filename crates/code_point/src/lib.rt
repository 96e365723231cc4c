// A code point in UTF-8.
#![tactic(auto)]

ghost use Rattle.std.specs.Prelude.{◌≡◌, ◌<◌, length};
ghost use Rattle.notation.specs.Quoted.{utf8_of};
ghost use Rattle.literal_body.specs.LiteralAnswers.{Put};
ghost use Rattle.code_point.specs.Points.{Tail};

use literal_body::{put, put_two};

fn tail(c: u32) -> u8
    ensures { Tail c result }
{
    (0x80 + c % 0x40) as u8
}

// Writes a code point in UTF-8.
pub fn put_point(out: &mut [u8], p: usize, c: u32) -> usize
    requires { c < 0x110000 }
    ensures { Put out.old out.new p result (utf8_of c) }
{
    match c {
        0x00..=0x7f => put(out, p, c as u8),
        0x80..=0x7ff => put_two(out, p, (0xc0 + c / 0x40) as u8, tail(c)),
        0x800..=0xffff => {
            let q = put(out, p, (0xe0 + c / 0x1000) as u8);
            put_two(out, q, tail(c / 0x40), tail(c))
        }
        _ => {
            let q = put_two(out, p, (0xf0 + c / 0x40000) as u8, tail(c / 0x1000));
            put_two(out, q, tail(c / 0x40), tail(c))
        }
    }
}

// How many bytes that is.
pub fn point_size(c: u32) -> usize
    ensures { result ≡ length (utf8_of c) }
{
    match c {
        0x00..=0x7f => 1,
        0x80..=0x7ff => 2,
        0x800..=0xffff => 3,
        _ => 4,
    }
}
