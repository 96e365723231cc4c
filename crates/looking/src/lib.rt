// The part of bytes at a path, looked up.
#![tactic(auto)]

mod guided;

ghost use Rattle.std.specs.Prelude.{◌≡◌};
ghost use Rattle.operations.specs.Operations.{look_up, part_of};
ghost use Rattle.part.specs.PartAnswers.{locate_told, locate_of};
ghost use Rattle.looking.specs.Answers.{Checks, Accepts, Parts};

use crate::guided::walk_through;
use part::{Part, between, nowhere, part_of};
use path::follow;
use refusal::Refusal;
use refusal::limit::MOST_LEVELS;
use walk_answer::Passage;

fn checked_all(bytes: &[u8]) -> Result<Passage, Refusal>
    ensures { Checks bytes.now result }
{
    walk::walk_all(bytes)
}

// The part at a path, in bytes that were checked.
fn part_in(bytes: &[u8], path: &[u16]) -> Result<Part, Refusal>
    requires { Accepts bytes.now }
    ensures { Parts bytes.now path.now result }
{
    match follow(bytes, path) {
        Err(i) => nowhere(i),
        Ok(c) => {
            let at = c.at;
            let whole = walk_answer::item_after(at, walk::item(&bytes[at..], MOST_LEVELS))?;
            between(at, whole.end)
        }
    }
}

// The bytes are checked first, then the path is followed.
fn part_by_steps(bytes: &[u8], path: &[u16]) -> Result<Part, Refusal>
    ensures { Parts bytes.now path.now result }
{
    checked_all(bytes)?;
    part_in(bytes, path)
}

// Most parts are found in one walk over all bytes. It never refuses: what it does not find is checked and followed step by step.
fn part_at(bytes: &[u8], path: &[u16]) -> Result<Part, Refusal>
    ensures { Parts bytes.now path.now result }
{
    match walk_through(bytes, path) {
        Some(w) => between(w.start, w.end),
        None => part_by_steps(bytes, path),
    }
}

// The part of the bytes at a path.
pub fn locate(bytes: &[u8], path: &[u16]) -> Result<Part, Refusal>
    ensures { locate_told result ≡ locate_of (look_up bytes.now path.now) }
{
    part_at(bytes, path)
}

// The item at a path, a part of the bytes themselves; an empty part where there is none.
pub fn look_up<'a, 'b>(bytes: &'a [u8], path: &'b [u16]) -> &'a [u8]
    ensures { result.now ≡ part_of bytes.now (look_up bytes.now path.now) }
{
    part_of(bytes, part_at(bytes, path))
}
