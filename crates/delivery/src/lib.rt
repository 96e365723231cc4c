// What was made in a buffer of our own, handed over in a lent one.
#![tactic(auto)]

ghost use Rattle.delivery.specs.Deliveries.{Delivered};

use outcome::{fits, refuse};
use refusal::{Refusal, RefusalKind};

// The first `size` bytes of what was made, if that is all of them and they have room.
pub fn deliver(made: &[u8], size: usize, out: &mut [u8]) -> Result<usize, Refusal>
    ensures { Delivered made.now size out.old out.new result }
{
    if fits(size, out.len()) {
        buffer::copy(made, size, out);
        return Ok(size);
    }
    refuse(RefusalKind::NoRoom, 0)
}
