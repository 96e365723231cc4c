// Decimal integers, and the openings of tags.
ghost use Rattle.std.specs.Prelude.{◌≡◌, true, false, ◌≤◌, ◌<◌, eqb, length, get_or};
ghost use Rattle.cbor.specs.Flags.{sign_of};
ghost use Rattle.leaf_answer.specs.LeafAnswers.{LeafTold};
ghost use Rattle.plain_leaf.specs.LeafParts.{IntegerMajor, argument_by, NumberAt};

use decimals::eight::decimal;
use decimals::{behind_sign, digit_at, ends, leads};
use head::initial::{NEGATIVE_INTEGER, UNSIGNED_INTEGER};
use leaf_answer::{LeafRead, leaf, odd, opening};
use leaf_head::put_head;
use scanning::scan::next_is;

fn major_of(minus: bool) -> u8
    ensures { IntegerMajor minus result }
{
    if minus {
        NEGATIVE_INTEGER
    } else {
        UNSIGNED_INTEGER
    }
}

// -n has the argument n - 1.
fn argument_of(minus: bool, value: u64) -> u64
    requires { minus ≡ true → 1 ≤ value }
    ensures { result ≡ argument_by (sign_of minus) value }
{
    if minus { value - 1 } else { value }
}

// The digits begin at `at`, the integer at `place`.
fn integer(
    text: &[u8],
    place: usize,
    at: usize,
    minus: bool,
    buf: &mut [u8],
    pos: usize,
) -> LeafRead
    requires { NumberAt text.now place at minus }
    ensures { LeafTold text.now buf.old buf.new place pos result }
{
    let b = text[at];
    let d = decimal(text, at);
    let end = d.end;
    let value = d.value;
    if !leads(b, minus, at + 1 < end) {
        return odd(place);
    }
    if ends(text, end) {
        let size = put_head(buf, pos, major_of(minus), argument_of(minus, value));
        return leaf(end, size, false, 0);
    }
    if minus {
        return odd(place);
    }
    if next_is(text, end, b'(') {
        return opening(end + 1, value);
    }
    odd(place)
}

pub fn signed(text: &[u8], at: usize, minus: bool, buf: &mut [u8], pos: usize) -> LeafRead
    requires minus_value { minus ≡ eqb (get_or text.now at 0) 0x2d }
    requires at_in_bounds { at < length text.now }
    ensures { LeafTold text.now buf.old buf.new at pos result }
{
    let from = behind_sign(at, minus);
    if !digit_at(text, from) {
        return odd(at);
    }
    integer(text, at, from, minus, buf, pos)
}
