// The text of leaves, written at a glance: integers of up to 32 bits, short strings and words, whose heads are the shortest. Room for the longest was seen to before.
#![tactic(auto)]

mod word;

ghost use Rattle.leaf_written.specs.LeafTexts.{Room, LeafTold};

use crate::word::word;
use leaf_integer::{four, one, small, two};
use leaf_kind::{Kind, kind_of};
use leaf_string::{short_bytes, short_text};
use leaf_written::Written;

// The leaf at a place.
pub fn leaf(bytes: &[u8], at: usize, out: &mut [u8], pos: usize) -> Option<Written>
    requires { Room bytes.now at out.old pos }
    ensures { LeafTold bytes.now at out.old out.new pos result }
{
    match kind_of(bytes[at]) {
        Kind::Small => small(bytes, at, out, pos),
        Kind::One => one(bytes, at, out, pos),
        Kind::Two => two(bytes, at, out, pos),
        Kind::Four => four(bytes, at, out, pos),
        Kind::Bytes => short_bytes(bytes, at, out, pos),
        Kind::Text => short_text(bytes, at, out, pos),
        Kind::False => Some(Written {
            end: at + 1,
            pos: word(b"false", out, pos),
        }),
        Kind::True => Some(Written {
            end: at + 1,
            pos: word(b"true", out, pos),
        }),
        Kind::Null => Some(Written {
            end: at + 1,
            pos: word(b"null", out, pos),
        }),
        Kind::Other => None,
    }
}
