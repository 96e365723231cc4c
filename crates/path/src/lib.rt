// A path, followed step by step.
#![tactic(auto)]

ghost use Rattle.std.specs.Prelude.{◌≡◌, ◌-◌, drop};
ghost use Rattle.walk_answer.specs.WalkAnswers.{until_by, Within};
ghost use Rattle.path.specs.Following.{nth_from, child_in};
ghost use Rattle.path.specs.StepAnswers.{ReachedAt, Step, items_before, major_by, past_items, Traced};

use head::initial::{ARRAY, MAP};
use refusal::limit::MOST_LEVELS;
use walk_answer::Mode;

// A place in the bytes.
#[derive(Drop)]
pub struct Cursor {
    pub at: usize,
}

pub fn wide(k: u16) -> u64
    ensures { Step k result }
{
    k as u64
}

// How many items stand before the element number `k` of an array, or before the entry number `k` of a map, where they come in pairs.
fn items_before(pairs: bool, k: u16) -> u64
    ensures { result ≡ items_before pairs k }
{
    if pairs {
        return wide(k) * 2;
    }
    wide(k)
}

// What is left of a number behind some.
pub fn behind(count: u64, k: u64) -> u64
    ensures { result ≡ count - k }
{
    if count <= k {
        return 0;
    }
    count - k
}

impl Cursor {
    // Past a number of items.
    fn past(self, bytes: &[u8], n: u64) -> Option<Cursor>
        requires { Within bytes.now self.at }
        ensures { ReachedAt bytes.now result (past_items n (drop self.at bytes.now)) }
    {
        let at = self.at;
        let part = walk_answer::after(
            at,
            0,
            walk::elements(&bytes[at..], Mode::Counted, n, MOST_LEVELS),
        );
        match part {
            Ok(m) => Some(Cursor { at: m.end }),
            Err(_) => None,
        }
    }

    // To the element of an array, or the entry of a map, number `k`, where they begin at the cursor.
    fn nth(self, bytes: &[u8], mode: Mode, count: u64, pairs: bool, k: u16) -> Option<Cursor>
        requires { Within bytes.now self.at }
        ensures { ReachedAt bytes.now result (nth_from (major_by pairs) k (until_by mode count) (drop self.at bytes.now)) }
    {
        let c = self.past(bytes, items_before(pairs, k))?;
        if walk_answer::is_over(bytes, c.at, mode, behind(count, wide(k))) {
            return None;
        }
        Some(c)
    }

    // Into the item at the cursor: to the element of an array, or the value of a map's entry, number `k`.
    fn into(self, bytes: &[u8], k: u16) -> Option<Cursor>
        ensures { ReachedAt bytes.now result (child_in k (drop self.at bytes.now)) }
    {
        let Ok(h) = head::read_head(bytes, self.at) else {
            return None;
        };
        let first = Cursor { at: h.end };
        let mode = walk_answer::mode_of(h.info);
        if h.major == ARRAY {
            return first.nth(bytes, mode, h.argument, false, k);
        }
        if h.major != MAP {
            return None;
        }
        let key = first.nth(bytes, mode, h.argument, true, k)?;
        key.past(bytes, 1)
    }
}

// Follows a path, step by step, from the front of the bytes on.
pub fn follow(bytes: &[u8], path: &[u16]) -> Result<Cursor, usize>
    ensures { Traced bytes.now path.now result }
{
    if path.len() == 0 {
        return Err(0);
    }
    let front = Cursor { at: 0 };
    let mut here = front
        .nth(bytes, Mode::Ended, 0, false, path[0])
        .ok_or(0usize)?;
    for i in 1..path.len() {
        here = here.into(bytes, path[i]).ok_or(i)?;
    }
    Ok(here)
}
