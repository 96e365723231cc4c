// Bytes as a text in diagnostic notation, in a lent buffer.
#![tactic(auto)]

mod one_pass;

ghost use Rattle.std.specs.Prelude.{◌≡◌, ◌^◌, ◌<◌};
ghost use Rattle.operations.specs.Operations.{print};
ghost use Rattle.outcome.specs.Outcomes.{outcome_of};
ghost use Rattle.printing.specs.PrintOutcomes.{AtOnce};

use crate::one_pass::print_all;
use outcome::{fits, turns_for};
use refusal::Refusal;

// THE WHOLE WAY, which says why there is no text

fn whole(bytes: &[u8], out: &mut [u8]) -> Result<usize, Refusal>
    ensures { outcome_of result out.new ≡ print bytes.now out.old }
{
    walk::walk_all(bytes)?;
    fitting_text::lay(bytes, out)
}

// IN ONE PASS, as nearly all bytes are printed

// The text is made in a buffer of our own: nothing is written to the lent one before it is known that all is right and has room. Answers its length.
fn pass(bytes: &[u8], made: &mut [u8], out: &mut [u8]) -> Option<usize>
    ensures { AtOnce bytes.now out.old out.new result }
{
    let length = print_all(bytes, made)?;
    if !fits(length, out.len()) {
        return None;
    }
    buffer::copy(made, length, out);
    Some(length)
}

// Bytes of at most so many are tried with a buffer that is soon cleared. Their texts are seldom three times as long.
const TINY: usize = 128;

const SMALL: usize = 1500;

// In a buffer of SIZE bytes.
fn pass_within<const SIZE: usize>(bytes: &[u8], out: &mut [u8]) -> Option<usize>
    requires { SIZE < 2 ^ 63 }
    ensures { AtOnce bytes.now out.old out.new result }
{
    let mut made = [0; SIZE];
    pass(bytes, &mut made, out)
}

// The large buffer, in which the longest text has room and some bytes more, stands in no caller's frame (`turns_for`).
fn pass_large(bytes: &[u8], out: &mut [u8], turns: u8) -> Option<usize>
    ensures { AtOnce bytes.now out.old out.new result }
{
    if 0 < turns {
        return pass_large(bytes, out, turns - 1);
    }
    pass_within::<65664>(bytes, out)
}

fn at_once(bytes: &[u8], out: &mut [u8]) -> Option<usize>
    ensures { AtOnce bytes.now out.old out.new result }
{
    if bytes.len() <= TINY {
        return pass_within::<504>(bytes, out);
    }
    if bytes.len() <= SMALL {
        return pass_within::<4608>(bytes, out);
    }
    pass_large(bytes, out, turns_for(bytes.len()))
}

pub fn print(bytes: &[u8], out: &mut [u8]) -> Result<usize, Refusal>
    ensures { outcome_of result out.new ≡ print bytes.now out.old }
{
    if let Some(length) = at_once(bytes, out) {
        return Ok(length);
    }
    whole(bytes, out)
}
