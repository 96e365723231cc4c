// What checking and scanning answer, by what the walk told.
#![tactic(auto)]

ghost use Rattle.std.specs.Prelude.{◌≡◌};
ghost use Rattle.walk_answer.specs.WalkAnswers.{pass_told, walk_told};
ghost use Rattle.checked.specs.CheckAnswers.{check_told, check_by, scan_told, scan_by};

use head::HeadAt;
use refusal::Refusal;
use walk_answer::{Passage, WalkedItem};

// One item: its major type, the rest of its head as read; where the head ends and its content begins; where the item ends.
#[derive(Drop)]
pub struct ItemAt {
    pub major: u8,
    pub info: u8,
    pub argument: u64,
    pub content: usize,
    pub end: usize,
}

// Bytes by the walk over all of them.
pub fn check_by(all: Result<Passage, Refusal>) -> Result<(), Refusal>
    ensures { check_told result ≡ check_by (pass_told all) }
{
    all?;
    Ok(())
}

// An item by its head and the walk over it.
pub fn scan_by(h: HeadAt, walked: Result<WalkedItem, Refusal>) -> Result<ItemAt, Refusal>
    ensures { scan_told result ≡ scan_by h (walk_told walked) }
{
    let m = walked?;
    Ok(ItemAt {
        major: m.major,
        info: h.info,
        argument: h.argument,
        content: h.end,
        end: m.end,
    })
}
