// The text of one item, with no blank or comment outside it.
ghost use Rattle.std.specs.Prelude.{◌≤◌, length};
ghost use Rattle.cbor.specs.Decode.{most_bytes};
ghost use Rattle.notation.specs.Reading.{marked, single};
ghost use Rattle.notation.specs.Alone.{plus};
ghost use Rattle.encoding.specs.ReadAnswers.{ReadTold, of_item};
ghost use Rattle.correcting.specs.OneAnswers.{Behind};

use encoding::answer::{MadeItem, refuse, strayed};
use reader::single;
use refusal::{Refusal, RefusalKind};
use scanning::scan::TextCursor;
use tokens::cut::next_token;

// The answer for an item that was read: what stands behind it may not stand there.
fn alone(text: &[u8], levels: usize, m: MadeItem) -> Result<MadeItem, Refusal>
    requires { m.next ≤ length (marked text.now) }
    ensures { Behind text.now levels m result }
{
    if m.next == text.len() {
        return Ok(m);
    }
    let t = next_token(text, m.next);
    if t.place != m.next {
        return refuse(RefusalKind::NotAllowed, m.next);
    }
    strayed(levels, t)
}

// One item that is the whole text, with some levels left, its bytes at the front of the buffer, if they fit.
pub(crate) fn read_one(text: &[u8], levels: usize, buf: &mut [u8]) -> Result<MadeItem, Refusal>
    requires { length text.now ≤ most_bytes }
    ensures { ReadTold of_item text.now buf.old buf.new (length (marked text.now)) 0 result (plus (single levels text.now)) }
{
    let first = TextCursor { at: 0 }.skip(text);
    if first.at != 0 {
        return refuse(RefusalKind::NotAllowed, 0);
    }
    let m = single(text, 0, levels, buf, 0)?;
    alone(text, levels, m)
}
