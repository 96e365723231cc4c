// Where a part of bytes is, or why there is none; and the bytes of it.
#![tactic(auto)]

ghost use Rattle.std.specs.Prelude.{◌≡◌, Ok, Err};
ghost use Rattle.part.specs.PartAnswers.{Ordered, taken};

use refusal::{Refusal, RefusalKind};

// The bytes of an item: they start at `start` and end before `end`.
#[derive(Drop)]
pub struct Part {
    pub start: usize,
    pub end: usize,
}

pub fn between(start: usize, end: usize) -> Result<Part, Refusal>
    ensures { result ≡ Ok (record { start = start; end = end }) }
{
    Ok(Part { start, end })
}

// A path leads nowhere from this step on.
pub fn nowhere(step: usize) -> Result<Part, Refusal>
    ensures { result ≡ Err (record { kind = RefusalKind.NoSuchPath; place = step }) }
{
    Err(Refusal {
        kind: RefusalKind::NoSuchPath,
        place: step,
    })
}

// The bytes of a part, out of those that it was found in; none where there is no part.
pub fn part_of<'a>(bytes: &'a [u8], found: Result<Part, Refusal>) -> &'a [u8]
    requires { Ordered bytes.now found }
    ensures { result.now ≡ taken bytes.now found }
{
    match found {
        Err(_e) => &bytes[0..0],
        Ok(p) => {
            let start = p.start;
            let end = p.end;
            &bytes[start..end]
        }
    }
}
