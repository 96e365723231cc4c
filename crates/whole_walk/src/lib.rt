// The whole walk over items: where each ends, or why it is refused. An item walker gets a slice that starts at its item, and hands the part that starts at
// the next item on.
#![tactic(auto)]

ghost use Rattle.std.specs.Prelude.{◌≡◌, suc, ◌<◌, length, drop};
ghost use Rattle.cbor.specs.Decode.{item};
ghost use Rattle.walk_answer.specs.WalkAnswers.{pass_told, told_of, pass_of, one_of, all_of, tag_of, until_by, Headed, Within};

use head::initial::{
    ARRAY, BREAK, BYTE_STRING, INDEFINITE_LENGTH, MAP, NEGATIVE_INTEGER, SIMPLE_VALUE, TAG,
    TEXT_STRING,
};
use refusal::{Refusal, RefusalKind};
use walk_answer::{
    IntoMode, MOST_ENTRIES, Mode, Passage, after, is_over, less, mode_of, past, reached, refuse,
};
use walk_parts::{chunk, content, headless, major_at};

// Items, one behind the other.
#[cycle(behind_elements_map_one_other_several_tag)]
fn elements(bytes: &[u8], mode: Mode, count: u64, levels: usize) -> Result<Passage, Refusal>
    ensures { pass_told result ≡ told_of (length bytes.now) (all_of 4 (suc levels) (until_by mode count) bytes.now) }
{
    let mut at = 0;
    let mut size: usize = 0;
    let mut left = count;
    while !is_over(bytes, at, mode, left) {
        let part = after(at, size, one(&bytes[at..], levels))?;
        at = part.end;
        size = part.size;
        left = less(left);
    }
    reached(past(at, mode), size)
}

// The item at the front, with levels left.
#[cycle(behind_elements_map_one_other_several_tag)]
pub fn one(bytes: &[u8], levels: usize) -> Result<Passage, Refusal>
    ensures { pass_told result ≡ told_of (length bytes.now) (one_of 4 (suc levels) bytes.now) }
{
    let Some(end) = head::head_end(bytes, 0) else {
        return headless(bytes);
    };
    let initial = bytes[0];
    let major = initial / 32;
    if major <= NEGATIVE_INTEGER {
        return reached(end, 0);
    }
    if major == SIMPLE_VALUE {
        if initial == BREAK {
            return refuse(RefusalKind::NotWellFormed, 0);
        }
        return reached(end, 0);
    }
    behind(
        bytes,
        major,
        initial % 32,
        head::head_argument(bytes, 0),
        end,
        levels,
    )
}

// A string, an array, a map or a tag at the front, by its head.
#[cycle(behind_elements_map_one_other_several_tag)]
fn behind(
    bytes: &[u8],
    major: u8,
    info: u8,
    argument: u64,
    end: usize,
    levels: usize,
) -> Result<Passage, Refusal>
    requires headed { Headed bytes.now (record { major = major; info = info; argument = argument; end = end }) }
    requires lt_major { (1 < major) × (major ≡ 7 → ⊥) }
    ensures { pass_told result ≡ pass_of (length bytes.now) (item levels bytes.now) }
{
    if major <= TEXT_STRING {
        if info == INDEFINITE_LENGTH {
            return after(
                end,
                0,
                several(&bytes[end..], Mode::Broken, 0, major, levels),
            );
        }
        return content(bytes, end, argument, major == TEXT_STRING);
    }
    if levels == 0 {
        return refuse(RefusalKind::TooDeep, 0);
    }
    if major == TAG {
        return tag(bytes, end, argument, levels - 1);
    }
    if major == ARRAY {
        return after(
            end,
            0,
            elements(&bytes[end..], mode_of(info), argument, levels - 1),
        );
    }
    map(bytes, end, mode_of(info), argument, levels - 1)
}

// A tag's item, behind its head.
#[cycle(behind_elements_map_one_other_several_tag)]
fn tag(bytes: &[u8], from: usize, n: u64, levels: usize) -> Result<Passage, Refusal>
    requires { Within bytes.now from }
    ensures { pass_told result ≡ told_of (length bytes.now) (tag_of n levels (length bytes.now) (drop from bytes.now)) }
{
    let inner = after(from, 0, elements(&bytes[from..], Mode::Counted, 1, levels))?;
    if typed_array::may_tag(n, major_at(bytes, from) == BYTE_STRING, inner.size) {
        return reached(inner.end, inner.size);
    }
    refuse(RefusalKind::BadTypedArray, 0)
}

// The entries of a map, behind its head. They are walked over as twice as many items, where these can be counted.
#[cycle(behind_elements_map_one_other_several_tag)]
fn map(bytes: &[u8], from: usize, mode: Mode, count: u64, levels: usize) -> Result<Passage, Refusal>
    requires { Within bytes.now from }
    ensures { pass_told result ≡ told_of (length bytes.now) (all_of 5 (suc levels) (until_by mode count) (drop from bytes.now)) }
{
    match mode {
        Mode::Counted if count <= MOST_ENTRIES => after(
            from,
            0,
            elements(&bytes[from..], Mode::Counted, count * 2, levels),
        ),
        _ => after(from, 0, several(&bytes[from..], mode, count, MAP, levels)),
    }
}

// Entries of a map, or chunks of a string, one by one.
#[cycle(behind_elements_map_one_other_several_tag)]
fn several(
    bytes: &[u8],
    mode: Mode,
    count: u64,
    major: u8,
    levels: usize,
) -> Result<Passage, Refusal>
    requires { major ≡ 4 → ⊥ }
    ensures { pass_told result ≡ told_of (length bytes.now) (all_of major (suc levels) (until_by mode count) bytes.now) }
{
    let mut at = 0;
    let mut size: usize = 0;
    let mut left = count;
    while !is_over(bytes, at, mode, left) {
        let part = after(at, size, other(&bytes[at..], major, levels))?;
        at = part.end;
        size = part.size;
        left = less(left);
    }
    reached(past(at, mode), size)
}

// An entry of a map, which is two items, or a chunk of a string.
#[cycle(behind_elements_map_one_other_several_tag)]
fn other(bytes: &[u8], major: u8, levels: usize) -> Result<Passage, Refusal>
    requires { major ≡ 4 → ⊥ }
    ensures { pass_told result ≡ told_of (length bytes.now) (one_of major (suc levels) bytes.now) }
{
    if major == MAP {
        return elements(bytes, Mode::Counted, 2, levels);
    }
    chunk(bytes, major == TEXT_STRING)
}

// THE WHOLE

// Items, one behind the other, by a mode or the number of one.
pub fn slowly<M: IntoMode>(
    bytes: &[u8],
    mode: M,
    count: u64,
    levels: usize,
) -> Result<Passage, Refusal>
    ensures { pass_told result ≡ told_of (length bytes.now) (all_of 4 (suc levels) (until_by (M.mode mode) count) bytes.now) }
{
    elements(bytes, mode.into_mode(), count, levels)
}
