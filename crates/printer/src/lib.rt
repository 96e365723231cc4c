// From the bytes of items to their text. The bytes were checked before: of others something is printed, and nothing is said of it.
// Each function answers where in the bytes what it printed ends, and the place in the buffer behind its text.
#![tactic(auto)]

ghost use Rattle.std.specs.Prelude.{◌≡◌, ◌+◌, ◌-◌, true, drop, eqb};
ghost use Rattle.cbor.specs.Heads.{taking};
ghost use Rattle.cbor.specs.Decode.{chunk_at, entry_at, item};
ghost use Rattle.notation.specs.Printing.{print_item, print_string};
ghost use Rattle.walk_answer.specs.declared.Mode.TheVariants.{Broken};
ghost use Rattle.walk_answer.specs.WalkAnswers.{map_result as mapped, below, until_by, mode_by, Within};
ghost use Rattle.cbor.specs.Flags.{kind_of};
ghost use Rattle.text_output.specs.PrintParts.{Prints, width_by};
ghost use Rattle.printer.specs.PrintAnswers.{entry_text, chunk_text, print_one_of, print_all_of, Moves, separator_of, joined, opening_by, closing_by, container_text, chunked_text, tag_text, PrintTold, PrintHeaded, PrintedAll};

use head::HeadAt;
use head::initial::{ARRAY, INDEFINITE_LENGTH, MAP, NEGATIVE_INTEGER, TAG, TEXT_STRING};
use saturating::sum;
use walk_answer::{Mode, is_over, less, mode_of, past};

// The levels of items: 16 inside each other, and the text around them.
const LEVELS: usize = 17;

#[derive(Drop)]
pub struct Printed {
    pub end: usize,
    pub pos: usize,
}

// Whether a part that starts at a place ends behind it, and within the bytes.
fn moves(at: usize, end: usize, size: usize) -> bool
    ensures { Moves at end size result }
{
    if end <= at {
        return false;
    }
    end <= size
}

// What stands before one of several: a comma and a blank, or another byte, before each but the first.
fn separator(first: bool, blank: u8, out: &mut [u8], pos: usize) -> usize
    ensures { Prints out.old out.new pos (separator_of first blank) result }
{
    if first {
        return pos;
    }
    let p = text_output::put(out, pos, b',');
    text_output::put(out, p, blank)
}

fn opening(major: u8) -> u8
    ensures { result ≡ opening_by major }
{
    if major == ARRAY { b'[' } else { b'{' }
}

fn closing(major: u8) -> u8
    ensures { result ≡ closing_by major }
{
    if major == ARRAY { b']' } else { b'}' }
}

// STRINGS

// A string behind its head.
fn string(
    bytes: &[u8],
    from: usize,
    n: u64,
    info: u8,
    text: bool,
    out: &mut [u8],
    pos: usize,
) -> Printed
    requires { Within bytes.now from }
    ensures { PrintTold bytes.now from out.old out.new pos result (mapped (print_string (kind_of text) (width_by info)) (taking n 0 (drop from bytes.now))) }
{
    if ((bytes.len() - from) as u64) < n {
        return Printed {
            end: bytes.len(),
            pos,
        };
    }
    let end = from + n as usize;
    let p = leaf_printer::string(&bytes[from..end], info, text, out, pos);
    Printed { end, pos: p }
}

fn chunk(bytes: &[u8], at: usize, text: bool, out: &mut [u8], pos: usize) -> Printed
    ensures { PrintTold bytes.now (at + 1) out.old out.new pos result (mapped (chunk_text (kind_of text)) (chunk_at (kind_of text) (drop at bytes.now))) }
{
    let read = head::read_head(bytes, at);
    match read {
        Err(_) => Printed {
            end: bytes.len(),
            pos,
        },
        Ok(h) => string(bytes, h.end, h.argument, h.info, text, out, pos),
    }
}

// THE CYCLE

// The item at a place, with levels left.
#[cycle(behind_below_chunked_container_entry_one_print_item_several_tag)]
pub fn print_item(bytes: &[u8], at: usize, levels: usize, out: &mut [u8], pos: usize) -> Printed
    ensures { PrintTold bytes.now (at + 1) out.old out.new pos result (mapped print_item (item levels (drop at bytes.now))) }
{
    let read = head::read_head(bytes, at);
    match read {
        Err(_) => Printed {
            end: bytes.len(),
            pos,
        },
        Ok(h) => behind(bytes, at, h, levels, out, pos),
    }
}

// The item at a place, by its head.
#[cycle(behind_below_chunked_container_entry_one_print_item_several_tag)]
fn behind(bytes: &[u8], at: usize, h: HeadAt, levels: usize, out: &mut [u8], pos: usize) -> Printed
    requires { PrintHeaded bytes.now at h }
    ensures { PrintTold bytes.now (at + 1) out.old out.new pos result (mapped print_item (item levels (drop at bytes.now))) }
{
    let major = h.major;
    if major <= NEGATIVE_INTEGER {
        let p = leaf_printer::integer(major == NEGATIVE_INTEGER, h.info, h.argument, out, pos);
        return Printed { end: h.end, pos: p };
    }
    if major <= TEXT_STRING {
        if h.info == INDEFINITE_LENGTH {
            return chunked(bytes, h.end, major, levels, out, pos);
        }
        return string(
            bytes,
            h.end,
            h.argument,
            h.info,
            major == TEXT_STRING,
            out,
            pos,
        );
    }
    if major <= MAP {
        return container(bytes, h.end, h.info, h.argument, major, levels, out, pos);
    }
    if major == TAG {
        return tag(bytes, h.end, h.info, h.argument, levels, out, pos);
    }
    let p = leaf_printer::simple(h.argument, out, pos);
    Printed { end: h.end, pos: p }
}

// The item at a place, one level down.
#[cycle(behind_below_chunked_container_entry_one_print_item_several_tag)]
fn below(bytes: &[u8], at: usize, levels: usize, out: &mut [u8], pos: usize) -> Printed
    ensures { PrintTold bytes.now (at + 1) out.old out.new pos result (mapped print_item (below levels (drop at bytes.now))) }
{
    if levels == 0 {
        return Printed {
            end: bytes.len(),
            pos,
        };
    }
    print_item(bytes, at, levels - 1, out, pos)
}

// A tag behind its head.
#[cycle(behind_below_chunked_container_entry_one_print_item_several_tag)]
fn tag(
    bytes: &[u8],
    from: usize,
    info: u8,
    n: u64,
    levels: usize,
    out: &mut [u8],
    pos: usize,
) -> Printed
    ensures { PrintTold bytes.now from out.old out.new pos result (mapped (tag_text info n) (below levels (drop from bytes.now))) }
{
    let p = leaf_printer::integer(false, info, n, out, pos);
    let q = text_output::put(out, p, b'(');
    let part = below(bytes, from, levels, out, q);
    let e = text_output::put(out, part.pos, b')');
    Printed {
        end: part.end,
        pos: e,
    }
}

// An array or a map behind its head.
#[cycle(behind_below_chunked_container_entry_one_print_item_several_tag)]
fn container(
    bytes: &[u8],
    from: usize,
    info: u8,
    n: u64,
    major: u8,
    levels: usize,
    out: &mut [u8],
    pos: usize,
) -> Printed
    requires { Within bytes.now from }
    ensures { PrintTold bytes.now from out.old out.new pos result (mapped (container_text major info n) (print_all_of major levels (until_by (mode_by info) n) (drop from bytes.now))) }
{
    let p = text_output::put(out, pos, opening(major));
    let q = leaf_printer::size_mark(info, n, out, p);
    let part = several(bytes, from, mode_of(info), n, major, levels, b' ', out, q);
    let e = text_output::put(out, part.pos, closing(major));
    Printed {
        end: part.end,
        pos: e,
    }
}

// A string in chunks, behind its head.
#[cycle(behind_below_chunked_container_entry_one_print_item_several_tag)]
fn chunked(
    bytes: &[u8],
    from: usize,
    major: u8,
    levels: usize,
    out: &mut [u8],
    pos: usize,
) -> Printed
    requires { Within bytes.now from }
    ensures { PrintTold bytes.now from out.old out.new pos result (mapped (chunked_text (kind_of (eqb major 3))) (print_all_of major levels (until_by Broken 0) (drop from bytes.now))) }
{
    if is_over(bytes, from, Mode::Broken, 0) {
        let p = leaf_printer::no_chunks(major == TEXT_STRING, out, pos);
        return Printed {
            end: sum(from, 1),
            pos: p,
        };
    }
    let p = text_output::put_all(b"(_ ", out, pos);
    let part = several(bytes, from, Mode::Broken, 0, major, levels, b' ', out, p);
    let e = text_output::put(out, part.pos, b')');
    Printed {
        end: part.end,
        pos: e,
    }
}

// An entry of a map: a key and its value.
#[cycle(behind_below_chunked_container_entry_one_print_item_several_tag)]
fn entry(bytes: &[u8], at: usize, levels: usize, out: &mut [u8], pos: usize) -> Printed
    ensures { PrintTold bytes.now (at + 1) out.old out.new pos result (mapped entry_text (entry_at (below levels) (drop at bytes.now))) }
{
    let key = below(bytes, at, levels, out, pos);
    let p = text_output::put_all(b": ", out, key.pos);
    below(bytes, key.end, levels, out, p)
}

// One of several inside an item of a major type.
#[cycle(behind_below_chunked_container_entry_one_print_item_several_tag)]
fn one(bytes: &[u8], at: usize, major: u8, levels: usize, out: &mut [u8], pos: usize) -> Printed
    ensures { PrintTold bytes.now (at + 1) out.old out.new pos result (print_one_of major levels (drop at bytes.now)) }
{
    if major == ARRAY {
        return below(bytes, at, levels, out, pos);
    }
    if major == MAP {
        return entry(bytes, at, levels, out, pos);
    }
    chunk(bytes, at, major == TEXT_STRING, out, pos)
}

// Several inside an item of a major type, from a place on.
#[cycle(behind_below_chunked_container_entry_one_print_item_several_tag)]
fn several(
    bytes: &[u8],
    from: usize,
    mode: Mode,
    count: u64,
    major: u8,
    levels: usize,
    blank: u8,
    out: &mut [u8],
    pos: usize,
) -> Printed
    requires { Within bytes.now from }
    ensures { PrintTold bytes.now from out.old out.new pos result (mapped (joined blank true) (print_all_of major levels (until_by mode count) (drop from bytes.now))) }
{
    let mut at = from;
    let mut left = count;
    let mut p = pos;
    let mut first = true;
    while !is_over(bytes, at, mode, left) {
        let q = separator(first, blank, out, p);
        let part = one(bytes, at, major, levels, out, q);
        let end = part.end;
        if !moves(at, end, bytes.len()) {
            return Printed { end, pos: p };
        }
        at = end;
        p = part.pos;
        left = less(left);
        first = false;
    }
    Printed {
        end: past(at, mode),
        pos: p,
    }
}

// All items, one behind the other, as a text at the front of the buffer; answers its length.
pub fn print_items(bytes: &[u8], out: &mut [u8]) -> usize
    ensures { PrintedAll bytes.now out.old out.new result }
{
    if bytes.len() == 0 {
        return 0;
    }
    let part = several(bytes, 0, Mode::Ended, 0, ARRAY, LEVELS, b'\n', out, 0);
    text_output::put(out, part.pos, b'\n')
}
