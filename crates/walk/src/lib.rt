// A walk over items (RFC 8949), one behind the other and one inside the other: where each ends, or why it is refused.
#![tactic(auto)]

ghost use Rattle.std.specs.Prelude.{◌≡◌, suc, length};
ghost use Rattle.cbor.specs.Decode.{item, decode};
ghost use Rattle.walk_answer.specs.WalkAnswers.{pass_told, walk_told, told_of, walk_of, walk_all_of, all_of, until_by};

use quick_walk::{UNKNOWN, end_in, size_in};
use refusal::limit::{MOST_BYTES, MOST_LEVELS};
use refusal::{Refusal, RefusalKind};
use walk_answer::{IntoMode, Mode, Passage, WalkedItem, reached, refuse, with_major};
use walk_parts::major_at;
use whole_walk::slowly;

// Items, one behind the other: by the quick way, if that passes over them, else by the whole way, which tells a refusal.
pub fn elements<M: IntoMode>(
    bytes: &[u8],
    mode: M,
    count: u64,
    levels: usize,
) -> Result<Passage, Refusal>
    ensures { pass_told result ≡ told_of (length bytes.now) (all_of 4 (suc levels) (until_by (M.mode mode) count) bytes.now) }
{
    let mode = mode.into_mode();
    let r = quick_walk::passed(bytes, mode, count, levels);
    if r == UNKNOWN {
        return slowly(bytes, mode, count, levels);
    }
    reached(end_in(r), size_in(r))
}

// The item at the front, with levels left.
pub fn item(bytes: &[u8], levels: usize) -> Result<WalkedItem, Refusal>
    ensures { walk_told result ≡ walk_of (length bytes.now) (item levels bytes.now) }
{
    with_major(
        major_at(bytes, 0),
        elements(bytes, Mode::Counted, 1, levels),
    )
}

// The items of a whole sequence of at most 65,535 bytes, to its end.
pub fn walk_all(bytes: &[u8]) -> Result<Passage, Refusal>
    ensures { pass_told result ≡ walk_all_of (length bytes.now) (decode bytes.now) }
{
    if MOST_BYTES < bytes.len() {
        return refuse(RefusalKind::TooLong, 0);
    }
    elements(bytes, Mode::Ended, 0, MOST_LEVELS)
}
