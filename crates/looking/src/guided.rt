// A walk over all of the bytes that a path guides: what stands before the item at the path, that item, what stands behind it, each once.
// It finds what it finds; all else is left to the check and to the steps of the path, one behind the other.
ghost use Rattle.std.specs.Prelude.{[], ◌∷◌, ◌≤◌, length};
ghost use Rattle.cbor.specs.Decode.{most_bytes};
ghost use Rattle.walk_answer.specs.WalkAnswers.{until_by};
ghost use Rattle.looking.specs.GuidedAnswers.{Passes, Below, Inside, Among, Through};

use head::initial::{ARRAY, MAP};
use path::{behind, wide};
use quick_walk::{UNKNOWN, end_in, passed};
use refusal::limit::{MOST_BYTES, MOST_LEVELS};
use walk_answer::{MOST_ENTRIES, Mode, is_over};

// The item at the path goes from `start` to `end`; what the path was followed in ends before `behind`.
#[derive(Drop)]
pub(crate) struct Way {
    pub(crate) start: usize,
    pub(crate) end: usize,
    pub(crate) behind: usize,
}

// No place in any bytes.
const OUTSIDE: usize = 0xffff_ffff_ffff_ffff;

// Where a walk over items that begins at a place ends; outside the bytes if they are refused.
fn past_items(bytes: &[u8], from: usize, mode: Mode, count: u64, levels: usize) -> usize
    requires { Below bytes.now from levels }
    ensures { Passes bytes.now from levels (until_by mode count) result }
{
    if is_over(bytes, from, mode, count) {
        return walk_answer::past(from, mode);
    }
    let r = passed(&bytes[from..], mode, count, levels);
    if r == UNKNOWN {
        return OUTSIDE;
    }
    from + end_in(r)
}

// The item at the end of the path.
fn whole(bytes: &[u8], at: usize, levels: usize) -> Option<Way>
    requires { Below bytes.now at levels }
    ensures { Inside bytes.now [] at levels result }
{
    let end = past_items(bytes, at, Mode::Counted, 1, levels);
    if bytes.len() < end {
        return None;
    }
    Some(Way {
        start: at,
        end,
        behind: end,
    })
}

// Several items from a place on, as they go on by `mode`: `before` of them, the one in which the path goes on, the others.
#[cycle(among_inside)]
fn among(
    bytes: &[u8],
    from: usize,
    mode: Mode,
    count: u64,
    before: u64,
    path: &[u16],
    levels: usize,
) -> Option<Way>
    requires { Below bytes.now from levels }
    ensures { Among bytes.now path.now from levels mode count before result }
{
    let at = past_items(bytes, from, Mode::Counted, before, levels);
    if bytes.len() < at {
        return None;
    }
    let left = behind(count, before);
    if is_over(bytes, at, mode, left) {
        return None;
    }
    let inner = inside(bytes, at, path, levels)?;
    let end = past_items(bytes, inner.behind, mode, walk_answer::less(left), levels);
    if bytes.len() < end {
        return None;
    }
    Some(Way {
        start: inner.start,
        end: inner.end,
        behind: end,
    })
}

// The item at a place, and the path inside it. The entries of a map are walked over as twice as many items, where these can be counted.
#[cycle(among_inside)]
fn inside(bytes: &[u8], at: usize, path: &[u16], levels: usize) -> Option<Way>
    requires { Below bytes.now at levels }
    ensures { Inside bytes.now path.now at levels result }
{
    if path.len() == 0 {
        return whole(bytes, at, levels);
    }
    if levels == 0 {
        return None;
    }
    let Ok(h) = head::read_head(bytes, at) else {
        return None;
    };
    let k = wide(path[0]);
    let mode = walk_answer::mode_of(h.info);
    if h.major == ARRAY {
        return among(bytes, h.end, mode, h.argument, k, &path[1..], levels - 1);
    }
    if h.major != MAP {
        return None;
    }
    match mode {
        Mode::Counted if h.argument <= MOST_ENTRIES => among(
            bytes,
            h.end,
            Mode::Counted,
            h.argument * 2,
            k * 2 + 1,
            &path[1..],
            levels - 1,
        ),
        _ => None,
    }
}

// A top item, if all of the bytes are items: what a path of one step leads to.
fn top_item(bytes: &[u8], k: u64) -> Option<Way>
    requires { length bytes.now ≤ most_bytes }
    ensures { Through bytes.now (k ∷ []) result }
{
    let at = past_items(bytes, 0, Mode::Counted, k, MOST_LEVELS);
    if bytes.len() < at {
        return None;
    }
    let end = past_items(bytes, at, Mode::Counted, 1, MOST_LEVELS);
    if bytes.len() < end {
        return None;
    }
    let all = past_items(bytes, end, Mode::Ended, 0, MOST_LEVELS);
    if bytes.len() < all {
        return None;
    }
    Some(Way {
        start: at,
        end,
        behind: all,
    })
}

// All of the bytes, if they are items, and the item at a path, if there is one.
pub(crate) fn walk_through(bytes: &[u8], path: &[u16]) -> Option<Way>
    ensures { Through bytes.now path.now result }
{
    if MOST_BYTES < bytes.len() {
        return None;
    }
    if path.len() == 0 {
        return None;
    }
    let k = wide(path[0]);
    if path.len() == 1 {
        return top_item(bytes, k);
    }
    among(bytes, 0, Mode::Ended, 0, k, &path[1..], MOST_LEVELS)
}
