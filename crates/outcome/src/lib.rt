// What an operation answers that writes into a lent buffer.
#![tactic(auto)]

ghost use Rattle.std.specs.Prelude.{◌≡◌, ◌≤◌, min, leb};
ghost use Rattle.cbor.specs.Decode.{most_bytes};
ghost use Rattle.outcome.specs.Outcomes.{Refuses};

use refusal::limit::MOST_BYTES;
use refusal::{Refusal, RefusalKind};

pub fn refuse(kind: RefusalKind, place: usize) -> Result<usize, Refusal>
    ensures { Refuses kind place result }
{
    Err(Refusal { kind, place })
}

// Whether a result of some bytes has room in a buffer of some bytes.
pub fn fits(size: usize, room: usize) -> bool
    ensures { result ≡ leb size (min room most_bytes) }
{
    if MOST_BYTES < size {
        return false;
    }
    size <= room
}

// How often a function with a large buffer calls itself, for a text of some bytes: never, since no text is as long. But the compiler does not
// know that, and what may call itself is not taken into others. So the buffer stands in no caller's frame, where small texts would pay for its pages.
pub fn turns_for(length: usize) -> u8
    ensures { result ≤ 1 }
{
    if length < 0x8000_0000_0000_0000 { 0 } else { 1 }
}
