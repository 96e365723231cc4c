// The quick walk over items: where they end and how many bytes of strings they have, in one number, so that nothing goes through memory from level
// to level. It tells no refusal: of what it does not pass over, nothing is known.
#![tactic(auto)]

ghost use Rattle.std.specs.Prelude.{◌≡◌, suc, ◌+◌, ◌*◌, ◌/◌, ◌%◌, length};
ghost use Rattle.walk_answer.specs.WalkAnswers.{told_of, one_of, all_of, until_by};
ghost use Rattle.quick_walk.specs.QuickAnswers.{Quick, Halves, Deeper, Shifts, Shifted, Opens, Ends};
ghost use Rattle.quick_head.specs.QuickHeads.{Small, Lengthy};

use head::initial::{ARRAY, BREAK, BYTE_STRING, INDEFINITE_LENGTH, MAP, TAG, TEXT_STRING};
use head::{head_argument, head_end};
use quick_head::{NO_HEAD, NO_LENGTH, TWO_END, inner, two_bytes};
use quick_leaf::{NO_LEAF, is_right, leaf_at, leaf_content};
use walk_answer::{IntoMode, MOST_ENTRIES, Mode, is_over, mode_of, past};
use walk_parts::{is_text, major_at};
use whole_walk::one;

// Nothing is known.
pub const UNKNOWN: u64 = 0xffff_ffff_ffff_ffff;

// Ends and sizes are below this, so that both are in one number.
const HALF: u64 = 0x1_0000_0000;

// An end and a size in one number.
fn pack(end: usize, size: usize) -> u64
    requires { Halves end size }
    ensures { result ≡ size * 4294967296 + end }
{
    size as u64 * HALF + end as u64
}

pub fn end_in(r: u64) -> usize
    ensures { result ≡ r % 4294967296 }
{
    (r % HALF) as usize
}

pub fn size_in(r: u64) -> usize
    ensures { result ≡ r / 4294967296 }
{
    (r / HALF) as usize
}

// The same answer, counted from `end` places before.
fn shift(end: usize, r: u64) -> u64
    requires { Shifts end r }
    ensures { Shifted end r result }
{
    if r == UNKNOWN {
        return UNKNOWN;
    }
    r + end as u64
}

// ITEMS WITHOUT PARTS, AND ALL OTHERS

// How many items stand behind the item at the front, if its initial byte is all of its head, and a level is left for them.
fn opened(bytes: &[u8], levels: usize) -> u8
    ensures { Opens bytes.now levels result }
{
    if levels == 0 {
        return NO_HEAD;
    }
    if bytes.len() == 0 {
        return NO_HEAD;
    }
    inner(bytes[0])
}

// The item at the front, by the whole way.
fn whole(bytes: &[u8], levels: usize) -> u64
    requires { Small bytes.now }
    ensures { Quick (told_of (length bytes.now) (one_of 4 (suc levels) bytes.now)) result }
{
    match one(bytes, levels) {
        Err(_) => UNKNOWN,
        Ok(m) => pack(m.end, m.size),
    }
}

// A string at the front, by the end of its head and its length.
fn string(bytes: &[u8], end: usize, n: u64, levels: usize) -> u64
    requires { Lengthy bytes.now end n }
    ensures { Quick (told_of (length bytes.now) (one_of 4 (suc levels) bytes.now)) result }
{
    if ((bytes.len() - end) as u64) < n {
        return UNKNOWN;
    }
    let behind = end + n as usize;
    if is_text(&bytes[end..behind], bytes[0] / 32 == TEXT_STRING) {
        return pack(behind, behind - end);
    }
    UNKNOWN
}

// A number or a string of a definite length at the front, if it is one.
fn plain(bytes: &[u8], levels: usize) -> u64
    requires { Small bytes.now }
    ensures { Quick (told_of (length bytes.now) (one_of 4 (suc levels) bytes.now)) result }
{
    let two = two_bytes(bytes);
    if two < NO_LENGTH {
        return string(bytes, TWO_END, two, levels);
    }
    let Some(end) = head_end(bytes, 0) else {
        return UNKNOWN;
    };
    let initial = bytes[0];
    let major = initial / 32;
    if major < BYTE_STRING {
        return pack(end, 0);
    }
    if TEXT_STRING < major {
        return whole(bytes, levels);
    }
    if initial % 32 == INDEFINITE_LENGTH {
        return whole(bytes, levels);
    }
    string(bytes, end, head_argument(bytes, 0), levels)
}

// THE CYCLE

// Whether no item stands at the front: the bytes end, or there is a break.
fn is_end(bytes: &[u8]) -> bool
    ensures { Ends bytes.now result }
{
    if bytes.len() == 0 {
        return true;
    }
    bytes[0] == BREAK
}

// How many are left, where they are counted; else a number that no walk gets to the end of.
fn most_left(mode: Mode, count: u64) -> u64
    ensures { until_by mode result ≡ until_by mode count }
{
    match mode {
        Mode::Counted => count,
        _ => u64::MAX,
    }
}

// Items, one behind the other. A leaf is no break and not the end, so on the way over one the mode is not asked: each test there costs time.
#[cycle(list_part_run_tag)]
fn run(bytes: &[u8], mode: Mode, count: u64, levels: usize) -> u64
    requires { Small bytes.now }
    ensures { Quick (told_of (length bytes.now) (all_of 4 (suc levels) (until_by mode count) bytes.now)) result }
{
    let mut at = 0;
    let mut size: usize = 0;
    let mut left = most_left(mode, count);
    while 0 < left {
        let rest = &bytes[at..];
        let n = leaf_at(rest, 0);
        if n < NO_LEAF && is_right(rest, 0, n) {
            size += leaf_content(rest[0]) as usize;
            at += n as usize;
            left -= 1;
            continue;
        }
        if is_end(rest) {
            break;
        }
        let r = part(rest, levels);
        if r == UNKNOWN {
            return UNKNOWN;
        }
        at += end_in(r);
        size += size_in(r);
        left -= 1;
    }
    if is_over(bytes, at, mode, left) {
        return pack(past(at, mode), size);
    }
    UNKNOWN
}

// The item at the front, with levels left.
#[cycle(list_part_run_tag)]
fn part(bytes: &[u8], levels: usize) -> u64
    requires { Small bytes.now }
    ensures { Quick (told_of (length bytes.now) (one_of 4 (suc levels) bytes.now)) result }
{
    let major = major_at(bytes, 0);
    if major <= TEXT_STRING {
        return plain(bytes, levels);
    }
    if levels == 0 {
        return UNKNOWN;
    }
    let n = opened(bytes, levels);
    if n < NO_HEAD {
        return shift(1, run(&bytes[1..], Mode::Counted, n as u64, levels - 1));
    }
    if major <= MAP {
        return list(bytes, levels);
    }
    tag(bytes, levels)
}

// An array or a map at the front.
#[cycle(list_part_run_tag)]
fn list(bytes: &[u8], levels: usize) -> u64
    requires { Deeper bytes.now levels }
    ensures { Quick (told_of (length bytes.now) (one_of 4 (suc levels) bytes.now)) result }
{
    let Some(end) = head_end(bytes, 0) else {
        return UNKNOWN;
    };
    let major = bytes[0] / 32;
    let mode = mode_of(bytes[0] % 32);
    let n = head_argument(bytes, 0);
    if major == ARRAY {
        return shift(end, run(&bytes[end..], mode, n, levels - 1));
    }
    if major != MAP {
        return UNKNOWN;
    }
    match mode {
        Mode::Counted => {
            if MOST_ENTRIES < n {
                return UNKNOWN;
            }
            shift(end, run(&bytes[end..], Mode::Counted, n * 2, levels - 1))
        }
        _ => whole(bytes, levels),
    }
}

// A tag at the front.
#[cycle(list_part_run_tag)]
fn tag(bytes: &[u8], levels: usize) -> u64
    requires { Deeper bytes.now levels }
    ensures { Quick (told_of (length bytes.now) (one_of 4 (suc levels) bytes.now)) result }
{
    let Some(end) = head_end(bytes, 0) else {
        return UNKNOWN;
    };
    if bytes[0] / 32 != TAG {
        return whole(bytes, levels);
    }
    let n = head_argument(bytes, 0);
    let r = shift(end, run(&bytes[end..], Mode::Counted, 1, levels - 1));
    if r == UNKNOWN {
        return UNKNOWN;
    }
    if typed_array::may_tag(n, major_at(bytes, end) == BYTE_STRING, size_in(r)) {
        return r;
    }
    UNKNOWN
}

// THE WHOLE

// The most bytes whose ends and sizes go into one number.
const MOST_BYTES: usize = 0xffff_fffe;

// Items, one behind the other, in bytes of any length.
pub fn passed<M: IntoMode>(bytes: &[u8], mode: M, count: u64, levels: usize) -> u64
    ensures { Quick (told_of (length bytes.now) (all_of 4 (suc levels) (until_by (M.mode mode) count) bytes.now)) result }
{
    let mode = mode.into_mode();
    if MOST_BYTES < bytes.len() {
        return UNKNOWN;
    }
    run(bytes, mode, count, levels)
}
