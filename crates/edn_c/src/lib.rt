// The operations on numbers and slices alone, for programs in C, Rust and other languages (include/edn.h). Each returns 0, or the number
// of its refusal; what goes with that is written into `value`, as far as it reaches.
#![tactic(auto)]

ghost use Rattle.std.specs.Prelude.{◌≡◌, eqb};
ghost use Rattle.operations.specs.Operations.{read, print, correct, look_up, items_of};
ghost use Rattle.c_reply.specs.Replies.{code, succeeds, length_in};
ghost use Rattle.c_place_reply.specs.PlaceReplies.{spot_in, place_in};

use c_place_reply::{check_reply, part_reply};
use c_reply::reply;

// The bytes of a text's items, at the front of `out`; their length, or the place of the refusal, in value[0].
#[unsafe(no_mangle)]
pub extern "C" fn edn_read(text: &[u8], out: &mut [u8], value: &mut [u64]) -> u8
    ensures value { result ≡ code (read text.now out.old).answer }
    ensures result_value { eqb result 0 ≡ succeeds (read text.now out.old).answer }
    ensures out_after { out.new ≡ (read text.now out.old).buffer }
    ensures value_after { value.new ≡ length_in value.old (read text.now out.old).answer }
{
    let a = edn::read(text, out);
    reply(a, value)
}

// The text of the items that bytes are, at the front of `out`; its length, or the place of the refusal, in value[0].
#[unsafe(no_mangle)]
pub extern "C" fn edn_print(bytes: &[u8], out: &mut [u8], value: &mut [u64]) -> u8
    ensures value { result ≡ code (print bytes.now out.old).answer }
    ensures result_value { eqb result 0 ≡ succeeds (print bytes.now out.old).answer }
    ensures out_after { out.new ≡ (print bytes.now out.old).buffer }
    ensures value_after { value.new ≡ length_in value.old (print bytes.now out.old).answer }
{
    let a = edn::print(bytes, out);
    reply(a, value)
}

// The item that a text spells, in the place of the item at a path of the first `used` bytes; the new length, or the place of the
// refusal, in value[0].
#[unsafe(no_mangle)]
pub extern "C" fn edn_correct(
    buffer: &mut [u8],
    used: usize,
    path: &[u16],
    text: &[u8],
    value: &mut [u64],
) -> u8
    ensures value { result ≡ code (correct buffer.old used path.now text.now).answer }
    ensures result_value { eqb result 0 ≡ succeeds (correct buffer.old used path.now text.now).answer }
    ensures buffer_after { buffer.new ≡ (correct buffer.old used path.now text.now).buffer }
    ensures value_after { value.new ≡ length_in value.old (correct buffer.old used path.now text.now).answer }
{
    let a = edn::correct(buffer, used, path, text);
    reply(a, value)
}

// The item at a path: where it starts and ends in value[0] and value[1], or the place of the refusal in value[0].
#[unsafe(no_mangle)]
pub extern "C" fn edn_look_up(bytes: &[u8], path: &[u16], value: &mut [u64]) -> u8
    ensures value { result ≡ code (look_up bytes.now path.now) }
    ensures result_value { eqb result 0 ≡ succeeds (look_up bytes.now path.now) }
    ensures value_after { value.new ≡ spot_in value.old (look_up bytes.now path.now) }
{
    part_reply(edn::locate(bytes, path), value)
}

// Whether bytes are items, and nothing else; 0, or the place of the refusal, in value[0].
#[unsafe(no_mangle)]
pub extern "C" fn edn_check(bytes: &[u8], value: &mut [u64]) -> u8
    ensures value { result ≡ code (items_of bytes.now) }
    ensures result_value { eqb result 0 ≡ succeeds (items_of bytes.now) }
    ensures value_after { value.new ≡ place_in value.old (items_of bytes.now) }
{
    check_reply(edn::check(bytes), value)
}
