// What is planned of a correction, before anything is written.
#![tactic(auto)]

ghost use Rattle.std.specs.Prelude.{◌≡◌, Err};
ghost use Rattle.operations.specs.Operations.{level};
ghost use Rattle.planning.specs.PlanAnswers.{Bounded, PlanFor};

use outcome::fits;
use part::Part;
use refusal::limit::{MOST_BYTES, MOST_LEVELS};
use refusal::{Refusal, RefusalKind};

// The item's bytes go from `start` to `end`, `size` bytes come for them, and `length` bytes are used then.
#[derive(Drop)]
pub struct Plan {
    pub start: usize,
    pub end: usize,
    pub size: usize,
    pub length: usize,
}

pub fn refuse(kind: RefusalKind, place: usize) -> Result<Plan, Refusal>
    ensures { result ≡ Err (record { kind = kind; place = place }) }
{
    Err(Refusal { kind, place })
}

// The steps of a path to an item inside all levels.
const DEEPEST: usize = 17;

// How many levels are left for an item at a path.
pub fn level(path: &[u16]) -> usize
    ensures { result ≡ level path.now }
{
    let steps = path.len();
    if steps <= 1 {
        return MOST_LEVELS;
    }
    if DEEPEST < steps {
        return 0;
    }
    DEEPEST - steps
}

// 14, or the plan.
pub fn plan_for(p: Part, used: usize, size: usize, room: usize) -> Result<Plan, Refusal>
    requires { Bounded p used }
    ensures { PlanFor p used size room result }
{
    if MOST_BYTES < size {
        return refuse(RefusalKind::NoRoom, 0);
    }
    let length = p.start + size + (used - p.end);
    if fits(length, room) {
        return Ok(Plan {
            start: p.start,
            end: p.end,
            size,
            length,
        });
    }
    refuse(RefusalKind::NoRoom, 0)
}
