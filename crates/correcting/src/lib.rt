// One item of bytes replaced by the item that a text spells: first what would come of it, with nothing written; then the writing.
#![tactic(auto)]

mod one_item;

ghost use Rattle.std.specs.Prelude.{◌≡◌, ◌+◌, ◌*◌, ◌^◌, ◌≤◌, ◌<◌, length};
ghost use Rattle.operations.specs.Operations.{level, correct};
ghost use Rattle.outcome.specs.Outcomes.{outcome_of, Roomy};
ghost use Rattle.planning.specs.PlanAnswers.{Bounded};
ghost use Rattle.correcting.specs.Corrections.{Spots, Newly, Replaces, Decides, Corrects};

use crate::one_item::read_one;
use encoding::answer::MadeItem;
use looking::locate;
use outcome::{fits, turns_for};
use part::Part;
use planning::{Plan, level, plan_for, refuse};
use refusal::{Refusal, RefusalKind};
use splicing::put;
use text_check::check_text;

fn spot(bytes: &[u8], path: &[u16]) -> Result<Part, Refusal>
    ensures { Spots bytes.now path.now result }
{
    locate(bytes, path)
}

// The new item's bytes, from its text.
fn read_new(text: &[u8], levels: usize, item: &mut [u8]) -> Result<MadeItem, Refusal>
    requires { Roomy text.now item.old }
    ensures { Newly text.now levels item.new result }
{
    check_text(text)?;
    read_one(text, levels, item)
}

fn replace(
    p: Part,
    used: usize,
    room: usize,
    levels: usize,
    text: &[u8],
    item: &mut [u8],
) -> Result<Plan, Refusal>
    requires bounded { Bounded p used }
    requires roomy { Roomy text.now item.old }
    ensures { Replaces p used room levels text.now item.new result }
{
    let m = read_new(text, levels, item)?;
    plan_for(p, used, m.size, room)
}

// What a correction comes to: the used length, the bytes, the path, the text, then room. The new item's bytes are in `item`.
fn decide(
    buffer: &[u8],
    used: usize,
    path: &[u16],
    text: &[u8],
    item: &mut [u8],
) -> Result<Plan, Refusal>
    requires { Roomy text.now item.old }
    ensures { Decides buffer.now used path.now text.now item.new result }
{
    if fits(used, buffer.len()) {
        let p = spot(&buffer[..used], path)?;
        return replace(p, used, buffer.len(), level(path), text, item);
    }
    refuse(RefusalKind::TooLong, 0)
}

fn carry_out(
    buffer: &mut [u8],
    used: usize,
    path: &[u16],
    text: &[u8],
    item: &mut [u8],
) -> Result<usize, Refusal>
    requires { Roomy text.now item.old }
    ensures { Corrects buffer.old buffer.new used path.now text.now result }
{
    let p = decide(buffer, used, path, text, item)?;
    Ok(put(buffer, used, p, item))
}

// Buffers for texts of three sizes: nine bytes for each byte of the text and for its end. What is small is soon cleared.
const TINY: usize = 31;

const TINY_ITEM: usize = 288;

const SMALL: usize = 511;

const SMALL_ITEM: usize = 4608;

fn correct_in<const N: usize>(
    buffer: &mut [u8],
    used: usize,
    path: &[u16],
    text: &[u8],
) -> Result<usize, Refusal>
    requires roomy { 9 * (length text.now + 1) ≤ N }
    requires size { N < 2 ^ 63 }
    ensures { Corrects buffer.old buffer.new used path.now text.now result }
{
    let mut item = [0; N];
    carry_out(buffer, used, path, text, &mut item)
}

// The large buffer stands in no caller's frame (`turns_for`).
fn with_large(
    buffer: &mut [u8],
    used: usize,
    path: &[u16],
    text: &[u8],
    turns: u8,
) -> Result<usize, Refusal>
    ensures { Corrects buffer.old buffer.new used path.now text.now result }
{
    if 0 < turns {
        return with_large(buffer, used, path, text, turns - 1);
    }
    let mut item = [0; 65535];
    carry_out(buffer, used, path, text, &mut item)
}

pub fn correct(buffer: &mut [u8], used: usize, path: &[u16], text: &[u8]) -> Result<usize, Refusal>
    ensures { outcome_of result buffer.new ≡ correct buffer.old used path.now text.now }
{
    if text.len() <= TINY {
        return correct_in::<TINY_ITEM>(buffer, used, path, text);
    }
    if text.len() <= SMALL {
        return correct_in::<SMALL_ITEM>(buffer, used, path, text);
    }
    with_large(buffer, used, path, text, turns_for(text.len()))
}
