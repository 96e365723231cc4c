// A text in diagnostic notation as the bytes of its items, in a lent buffer.
#![tactic(auto)]

ghost use Rattle.std.specs.Prelude.{◌≡◌, ◌+◌, ◌*◌, ◌^◌, ◌≤◌, ◌<◌, length};
ghost use Rattle.cbor.specs.Decode.{most_bytes};
ghost use Rattle.operations.specs.Operations.{read};
ghost use Rattle.outcome.specs.Outcomes.{outcome_of};
ghost use Rattle.reading.specs.ReadOutcomes.{Ready, Encodes};

use delivery::deliver;
use outcome::turns_for;
use refusal::Refusal;
use text_check::check_text;

// The bytes are made in a buffer of our own: nothing is written to the lent one before it is known that all is right and has room.
fn encode(text: &[u8], made: &mut [u8], out: &mut [u8]) -> Result<usize, Refusal>
    requires { Ready text.now made.old }
    ensures { Encodes text.now out.old out.new result }
{
    let m = reader::read_items(text, made)?;
    deliver(made, m.size, out)
}

// Texts of at most so many bytes: a buffer for all that they can make, nine bytes for each of them and of their end, is soon cleared.
const TINY: usize = 55;

const TINY_MADE: usize = 504;

const SMALL: usize = 511;

const SMALL_MADE: usize = 4608;

fn encode_in<const N: usize>(text: &[u8], out: &mut [u8]) -> Result<usize, Refusal>
    requires short { length text.now ≤ most_bytes }
    requires roomy { 9 * (length text.now + 1) ≤ N }
    requires size { N < 2 ^ 63 }
    ensures { Encodes text.now out.old out.new result }
{
    let mut made = [0; N];
    encode(text, &mut made, out)
}

// The large buffer stands in no caller's frame (`turns_for`).
fn encode_large(text: &[u8], out: &mut [u8], turns: u8) -> Result<usize, Refusal>
    requires { length text.now ≤ most_bytes }
    ensures { Encodes text.now out.old out.new result }
{
    if 0 < turns {
        return encode_large(text, out, turns - 1);
    }
    let mut made = [0; 65535];
    encode(text, &mut made, out)
}

pub fn read(text: &[u8], out: &mut [u8]) -> Result<usize, Refusal>
    ensures { outcome_of result out.new ≡ read text.now out.old }
{
    check_text(text)?;
    if text.len() <= TINY {
        return encode_in::<TINY_MADE>(text, out);
    }
    if text.len() <= SMALL {
        return encode_in::<SMALL_MADE>(text, out);
    }
    encode_large(text, out, turns_for(text.len()))
}
