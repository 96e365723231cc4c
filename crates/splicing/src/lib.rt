// A planned correction carried out in its buffer.
#![tactic(auto)]

ghost use Rattle.std.specs.Prelude.{◌≡◌, take};
ghost use Rattle.memory.specs.Buffer.{over};
ghost use Rattle.operations.specs.Operations.{zeroed};
ghost use Rattle.splicing.specs.Splices.{splice, Plans};

use planning::Plan;

// The bytes behind the item are moved once, the new ones come before them, and what is used no longer is zeroed. It answers the new length.
pub fn put(buffer: &mut [u8], used: usize, p: Plan, item: &[u8]) -> usize
    requires { Plans buffer.old used item.now p }
    ensures value { result ≡ p.length }
    ensures buffer_after { buffer.new ≡ over buffer.old 0 (zeroed used (splice buffer.old used p.start p.end (take p.size item.now))) }
{
    buffer::move_part(buffer, p.end, p.start + p.size, used - p.end);
    buffer::copy_at(item, p.size, buffer, p.start);
    if p.length < used {
        buffer::zero(buffer, p.length, used - p.length);
    }
    p.length
}
