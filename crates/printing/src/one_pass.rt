// Printing in one pass: items are checked and written at the same time, into a buffer that they may fill as they like. Where something is refused, or there is no
// room, nothing is told, and the whole way has to be gone: it says why.
ghost use Rattle.std.specs.Prelude.{◌+◌, ◌-◌, ◌≤◌, ◌<◌, length};
ghost use Rattle.walk_answer.specs.WalkAnswers.{until_by, Within};
ghost use Rattle.printer.specs.PrintAnswers.{PrintHeaded};
ghost use Rattle.pass_parts.specs.PartAnswers.{ItemTold};
ghost use Rattle.printing.specs.PassAnswers.{AllTold, PassTold};

use head::initial::{ARRAY, INDEFINITE_LENGTH, MAP, TAG};
use leaf_written::{Written, has_block, has_space};
use pass_parts::{closed, comma, may_tag, odd, opening, separator, tag_opening};
use refusal::limit::{MOST_BYTES, MOST_LEVELS};
use walk_answer::{Mode, is_over, less, mode_of, past};

// No map that the library takes has as many entries.
const MOST: u64 = 0xffff_ffff;

// THE CYCLE

// Items one behind the other. In a map they are keys and values in turn.
#[cycle(array_branch_items_map_one_tag)]
fn items(
    bytes: &[u8],
    from: usize,
    mode: Mode,
    count: u64,
    map: bool,
    blank: u8,
    levels: usize,
    out: &mut [u8],
    pos: usize,
) -> Option<Written>
    requires within { Within bytes.now from }
    requires pos_in_bounds { pos ≤ length out.old }
    ensures { AllTold bytes.now from (until_by mode count) levels map blank count out.old out.new pos result }
{
    let mut at = from;
    let mut left = count;
    let mut p = pos;
    let mut first = true;
    while !is_over(bytes, at, mode, left) {
        if !has_space(out, p) {
            return None;
        }
        let q = separator(first, comma(map, left), blank, out, p);
        let part = one(bytes, at, levels, out, q)?;
        at = part.end;
        p = part.pos;
        left = less(left);
        first = false;
    }
    Some(Written {
        end: past(at, mode),
        pos: p,
    })
}

// The item at a place.
#[cycle(array_branch_items_map_one_tag)]
fn one(bytes: &[u8], at: usize, levels: usize, out: &mut [u8], pos: usize) -> Option<Written>
    requires within { Within bytes.now at }
    requires pos_in_bounds { pos + 80 ≤ length out.old }
    ensures { ItemTold bytes.now at levels out.old out.new pos result }
{
    if !has_block(bytes, at) {
        return odd(bytes, at, levels, out, pos);
    }
    if let Some(w) = leaf_text::leaf(bytes, at, out, pos) {
        return Some(w);
    }
    branch(bytes, at, levels, out, pos)
}

// An item that is no leaf, or none that is written at a glance.
#[cycle(array_branch_items_map_one_tag)]
fn branch(bytes: &[u8], at: usize, levels: usize, out: &mut [u8], pos: usize) -> Option<Written>
    requires at_in_bounds { at < length bytes.now }
    requires pos_in_bounds { pos + 80 ≤ length out.old }
    ensures { ItemTold bytes.now at levels out.old out.new pos result }
{
    let end = head::head_end(bytes, at)?;
    if levels == 0 {
        return odd(bytes, at, levels, out, pos);
    }
    let n = head::head_argument(bytes, at);
    let info = bytes[at] % 32;
    let major = bytes[at] / 32;
    match major {
        ARRAY => array(bytes, at, end, info, n, levels, out, pos),
        MAP => map(bytes, at, end, info, n, levels, out, pos),
        TAG => tag(bytes, at, end, info, n, levels, out, pos),
        _ => odd(bytes, at, levels, out, pos),
    }
}

#[cycle(array_branch_items_map_one_tag)]
fn array(
    bytes: &[u8],
    at: usize,
    end: usize,
    info: u8,
    n: u64,
    levels: usize,
    out: &mut [u8],
    pos: usize,
) -> Option<Written>
    requires at_in_bounds { at < length bytes.now }
    requires pos_in_bounds { pos + 80 ≤ length out.old }
    requires print_headed { PrintHeaded bytes.now at (record { major = 4; info = info; argument = n; end = end }) }
    requires levels_nonzero { 0 < levels }
    ensures { ItemTold bytes.now at levels out.old out.new pos result }
{
    let p = opening(b'[', info, n, out, pos);
    let part = items(
        bytes,
        end,
        mode_of(info),
        n,
        false,
        b' ',
        levels - 1,
        out,
        p,
    );
    closed(part, b']', out)
}

// A map whose entries are counted, as twice as many items.
#[cycle(array_branch_items_map_one_tag)]
fn map(
    bytes: &[u8],
    at: usize,
    end: usize,
    info: u8,
    n: u64,
    levels: usize,
    out: &mut [u8],
    pos: usize,
) -> Option<Written>
    requires at_in_bounds { at < length bytes.now }
    requires pos_in_bounds { pos + 80 ≤ length out.old }
    requires print_headed { PrintHeaded bytes.now at (record { major = 5; info = info; argument = n; end = end }) }
    requires levels_nonzero { 0 < levels }
    ensures { ItemTold bytes.now at levels out.old out.new pos result }
{
    if info == INDEFINITE_LENGTH {
        return odd(bytes, at, levels, out, pos);
    }
    if MOST < n {
        return None;
    }
    let p = opening(b'{', info, n, out, pos);
    let part = items(
        bytes,
        end,
        Mode::Counted,
        n * 2,
        true,
        b' ',
        levels - 1,
        out,
        p,
    );
    closed(part, b'}', out)
}

#[cycle(array_branch_items_map_one_tag)]
fn tag(
    bytes: &[u8],
    at: usize,
    end: usize,
    info: u8,
    n: u64,
    levels: usize,
    out: &mut [u8],
    pos: usize,
) -> Option<Written>
    requires at_in_bounds { at < length bytes.now }
    requires pos_in_bounds { pos + 80 ≤ length out.old }
    requires print_headed { PrintHeaded bytes.now at (record { major = 6; info = info; argument = n; end = end }) }
    requires levels_nonzero { 0 < levels }
    ensures { ItemTold bytes.now at levels out.old out.new pos result }
{
    if info == INDEFINITE_LENGTH {
        return None;
    }
    if !may_tag(bytes, end, n) {
        return odd(bytes, at, levels, out, pos);
    }
    let p = tag_opening(info, n, out, pos);
    let part = items(
        bytes,
        end,
        Mode::Counted,
        1,
        false,
        b' ',
        levels - 1,
        out,
        p,
    );
    closed(part, b')', out)
}

// THE WHOLE

// All items, one behind the other, as a text at the front of a buffer; answers its length.
pub(crate) fn print_all(bytes: &[u8], out: &mut [u8]) -> Option<usize>
    ensures { PassTold bytes.now out.old out.new result }
{
    if bytes.is_empty() || MOST_BYTES < bytes.len() {
        return None;
    }
    let all = items(bytes, 0, Mode::Ended, 0, false, b'\n', MOST_LEVELS, out, 0);
    let text = closed(all, b'\n', out)?;
    Some(text.pos)
}
