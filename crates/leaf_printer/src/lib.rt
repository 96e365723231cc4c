// What is printed of a head: numbers, indicators, quotes, simple values. `info` is the head's additional information.
#![tactic(auto)]

ghost use Rattle.std.specs.Prelude.{◌≡◌, [], eqb};
ghost use Rattle.cbor.specs.Widths.{argument_bytes, shortest};
ghost use Rattle.notation.specs.Printing.{width_name, indicator_of, size_of, print_simple, print_int, print_string, print_chunked};
ghost use Rattle.cbor.specs.Flags.{kind_of, sign_of};
ghost use Rattle.text_output.specs.PrintParts.{Prints, width_by, size_by, quote_of, open_quote, other_simple};

use head::initial::{IN_EIGHT_BYTES, IN_FOUR_BYTES, IN_ONE_BYTE, IN_TWO_BYTES, INDEFINITE_LENGTH};

// Whether the head with this argument is the shortest.
fn is_shortest(info: u8, n: u64) -> bool
    ensures { result ≡ eqb (argument_bytes (width_by info)) (argument_bytes (shortest n)) }
{
    head::argument_size(info) == head::argument_size(head::shortest_info(n))
}

#[tactic(auto, unfolding(text_output::specs::PrintParts::width_by, notation::specs::Printing::width_name))]
fn width_name(info: u8) -> u8
    ensures { result ≡ width_name (width_by info) }
{
    match info {
        IN_ONE_BYTE => b'0',
        IN_TWO_BYTES => b'1',
        IN_FOUR_BYTES => b'2',
        IN_EIGHT_BYTES => b'3',
        _ => b'i',
    }
}

// The indicator of a head that is not the shortest.
fn indicator(info: u8, n: u64, out: &mut [u8], pos: usize) -> usize
    ensures { Prints out.old out.new pos (indicator_of (width_by info) n) result }
{
    if is_shortest(info, n) {
        return pos;
    }
    let p = text_output::put(out, pos, b'_');
    text_output::put(out, p, width_name(info))
}

// What stands behind an opening bracket: an indicator, and a blank behind it.
pub fn size_mark(info: u8, n: u64, out: &mut [u8], pos: usize) -> usize
    ensures { Prints out.old out.new pos (size_of (size_by info) n) result }
{
    if info == INDEFINITE_LENGTH {
        return text_output::put_all(b"_ ", out, pos);
    }
    if is_shortest(info, n) {
        return pos;
    }
    let p = indicator(info, n, out, pos);
    text_output::put(out, p, b' ')
}

pub fn integer(negative: bool, info: u8, n: u64, out: &mut [u8], pos: usize) -> usize
    ensures { Prints out.old out.new pos (print_int (sign_of negative) (width_by info) n) result }
{
    if negative {
        let p = text_output::put(out, pos, b'-');
        let q = decimal_output::successor(n, out, p);
        indicator(info, n, out, q)
    } else {
        let p = decimal_output::decimal(n, out, pos);
        indicator(info, n, out, p)
    }
}

fn other_simple(n: u64, out: &mut [u8], pos: usize) -> usize
    ensures { Prints out.old out.new pos (other_simple n) result }
{
    let p = text_output::put_all(b"simple(", out, pos);
    let q = decimal_output::decimal(n, out, p);
    text_output::put(out, q, b')')
}

#[tactic(auto, unfolding(notation::specs::Printing::print_simple, text_output::specs::PrintParts::other_simple))]
pub fn simple(n: u64, out: &mut [u8], pos: usize) -> usize
    ensures { Prints out.old out.new pos (print_simple n) result }
{
    match n {
        20 => text_output::put_all(b"false", out, pos),
        21 => text_output::put_all(b"true", out, pos),
        22 => text_output::put_all(b"null", out, pos),
        23 => text_output::put_all(b"undefined", out, pos),
        _ => other_simple(n, out, pos),
    }
}

#[tactic(auto, unfolding(text_output::specs::PrintParts::quote_of))]
fn quote(text: bool) -> u8
    ensures { result ≡ quote_of text }
{
    if text { b'"' } else { b'\'' }
}

#[tactic(auto, unfolding(text_output::specs::PrintParts::open_quote))]
fn open_quote(text: bool, out: &mut [u8], pos: usize) -> usize
    ensures { Prints out.old out.new pos (open_quote text) result }
{
    if text {
        text_output::put(out, pos, b'"')
    } else {
        text_output::put_all(b"h'", out, pos)
    }
}

// A string with this content.
pub fn string(bytes: &[u8], info: u8, text: bool, out: &mut [u8], pos: usize) -> usize
    ensures { Prints out.old out.new pos (print_string (kind_of text) (width_by info) bytes.now) result }
{
    let p = open_quote(text, out, pos);
    let q = string_output::content(bytes, text, out, p);
    let e = text_output::put(out, q, quote(text));
    indicator(info, bytes.len() as u64, out, e)
}

// A chunked string without a chunk.
#[tactic(auto, unfolding(notation::specs::Printing::print_chunked, cbor::specs::Flags::kind_of))]
pub fn no_chunks(text: bool, out: &mut [u8], pos: usize) -> usize
    ensures { Prints out.old out.new pos (print_chunked (kind_of text) []) result }
{
    if text {
        text_output::put_all(b"\"\"_", out, pos)
    } else {
        text_output::put_all(b"''_", out, pos)
    }
}
