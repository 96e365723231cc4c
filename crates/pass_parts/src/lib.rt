// Of printing in one pass: what stands around items and between them; and items that are not written at a glance.
#![tactic(auto)]

ghost use Rattle.std.specs.Prelude.{◌≡◌, ◌∷◌, ◌+◌, ◌≤◌, length};
ghost use Rattle.notation.specs.Printing.{size_of};
ghost use Rattle.text_output.specs.PrintParts.{size_by};
ghost use Rattle.walk_answer.specs.WalkAnswers.{Within};
ghost use Rattle.leaf_written.specs.Laying.{Laid};
ghost use Rattle.pass_parts.specs.PartAnswers.{comma_of, separator_of, tag_opening, ItemTold, IsItem, Closed, MayTag, ShortString};

use head::initial::{BYTE_STRING, IN_ONE_BYTE, INDEFINITE_LENGTH};
use leaf_written::{Written, put};

// What stands before an item, of which `left` are left: in a map a colon before a value.
#[tactic(auto, unfolding(crate::specs::PartAnswers::comma_of))]
pub fn comma(map: bool, left: u64) -> u8
    ensures { result ≡ comma_of map left }
{
    if map && left % 2 == 1 { b':' } else { b',' }
}

// It is written before the first as well, and written over.
pub fn separator(first: bool, comma: u8, blank: u8, out: &mut [u8], pos: usize) -> usize
    requires { pos + 2 ≤ length out.old }
    ensures laid { Laid out.old out.new pos (separator_of first comma blank) result }
    ensures upper_bound { result ≤ pos + 2 }
{
    let p = put(comma, out, pos);
    let q = put(blank, out, p);
    if first { pos } else { q }
}

// What stands behind an opening bracket.
fn mark(info: u8, n: u64, out: &mut [u8], pos: usize) -> usize
    requires { pos + 3 ≤ length out.old }
    ensures { Laid out.old out.new pos (size_of (size_by info) n) result }
{
    if info < IN_ONE_BYTE && n < IN_ONE_BYTE as u64 {
        return pos;
    }
    if info == INDEFINITE_LENGTH {
        let p = put(b'_', out, pos);
        return put(b' ', out, p);
    }
    leaf_printer::size_mark(info, n, out, pos)
}

// An opening bracket, and what stands behind it.
pub fn opening(bracket: u8, info: u8, n: u64, out: &mut [u8], pos: usize) -> usize
    requires { pos + 80 ≤ length out.old }
    ensures { Laid out.old out.new pos (bracket ∷ size_of (size_by info) n) result }
{
    let p = put(bracket, out, pos);
    mark(info, n, out, p)
}

// The number of a tag, and the bracket behind it.
pub fn tag_opening(info: u8, n: u64, out: &mut [u8], pos: usize) -> usize
    requires { pos + 80 ≤ length out.old }
    ensures { Laid out.old out.new pos (tag_opening info n) result }
{
    let p = leaf_printer::integer(false, info, n, out, pos);
    put(b'(', out, p)
}

// A bracket behind what was written, if there is room.
pub fn closed(part: Option<Written>, bracket: u8, out: &mut [u8]) -> Option<Written>
    ensures { Closed out.old out.new part bracket result }
{
    let Written { end, pos } = part?;
    if out.len() <= pos {
        return None;
    }
    Some(Written {
        end,
        pos: put(bracket, out, pos),
    })
}

// Whether a byte string stands there whose head is its initial byte.
fn is_short_string(b: u8) -> bool
    ensures { ShortString b result }
{
    b / 32 == BYTE_STRING && b % 32 < IN_ONE_BYTE
}

// Whether it is seen that a tag may stand before what stands behind it: whatever it is, or a short byte string.
pub fn may_tag(bytes: &[u8], from: usize, n: u64) -> bool
    ensures { MayTag bytes.now from n result }
{
    let Some(&b) = bytes.get(from) else {
        return false;
    };
    typed_array::may_tag(n, is_short_string(b), (b % 32) as usize)
}

// The text of an item that is right.
fn whole(bytes: &[u8], at: usize, levels: usize, out: &mut [u8], pos: usize) -> Option<Written>
    requires item { IsItem bytes.now at levels }
    requires pos_in_bounds { pos ≤ length out.old }
    ensures { ItemTold bytes.now at levels out.old out.new pos result }
{
    let p = printer::print_item(bytes, at, levels, out, pos);
    if out.len() < p.pos {
        return None;
    }
    Some(Written {
        end: p.end,
        pos: p.pos,
    })
}

// Any item: checked first, and then written.
pub fn odd(bytes: &[u8], at: usize, levels: usize, out: &mut [u8], pos: usize) -> Option<Written>
    requires within { Within bytes.now at }
    requires pos_in_bounds { pos ≤ length out.old }
    ensures { ItemTold bytes.now at levels out.old out.new pos result }
{
    let w = walk::item(&bytes[at..], levels);
    match w {
        Err(_) => None,
        Ok(_) => whole(bytes, at, levels, out, pos),
    }
}
