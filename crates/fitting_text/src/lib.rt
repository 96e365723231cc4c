// The text of bytes that were checked, in a lent buffer in which it has room.
#![tactic(auto)]

ghost use Rattle.fitting_text.specs.FittingAnswers.{TextSize, Lays};

use outcome::{fits, refuse};
use refusal::{Refusal, RefusalKind};

// The length of the text of bytes that were checked: what is printed with no room at all is measured.
fn text_size(bytes: &[u8]) -> usize
    ensures { TextSize bytes.now result }
{
    let mut nowhere = [0; 0];
    printer::print_items(bytes, &mut nowhere)
}

// The text of bytes that were checked. Its size is known before its first byte is written.
pub fn lay(bytes: &[u8], out: &mut [u8]) -> Result<usize, Refusal>
    ensures { Lays bytes.now out.old out.new result }
{
    let size = text_size(bytes);
    if fits(size, out.len()) {
        printer::print_items(bytes, out);
        return Ok(size);
    }
    refuse(RefusalKind::NoRoom, 0)
}
