// Integers and simple values of every spelling, by their tokens.
ghost use Rattle.std.specs.Prelude.{◌≡◌, ◌<◌, eqb, length, get_or};
ghost use Rattle.leaf_answer.specs.LeafAnswers.{LeafTold};
ghost use Rattle.leaf_reader.specs.TokenParts.{TokenTold, SimpleAt};

use decimals::{behind_sign, digit_at};
use encoding::heads::{head_size, initial};
use leaf_answer::{LeafRead, leaf, nothing};
use numbers::number::number;
use plain_leaf::word::four;
use scanning::scan::next_is;
use token::Token;
use token::kind::{SIMPLE, UNSIGNED};
use words::simple_token;

// A token that is an integer or a simple value is its head.
fn token_leaf(t: Token, place: usize, buf: &mut [u8], pos: usize) -> LeafRead
    ensures { TokenTold t buf.old buf.new place pos result }
{
    let kind = t.kind;
    if kind < UNSIGNED || SIMPLE < kind {
        return nothing(place);
    }
    let first = initial(t);
    head::write_head(buf, pos, first, t.argument);
    leaf(t.next, head_size(first), false, 0)
}

pub(crate) fn other_integer(
    text: &[u8],
    place: usize,
    minus: bool,
    buf: &mut [u8],
    pos: usize,
) -> LeafRead
    requires minus_value { minus ≡ eqb (get_or text.now place 0) 0x2d }
    requires place_in_bounds { place < length text.now }
    ensures { LeafTold text.now buf.old buf.new place pos result }
{
    let at = behind_sign(place, minus);
    if !digit_at(text, at) {
        return nothing(place);
    }
    token_leaf(number(text, place, at, minus), place, buf, pos)
}

// The letters simp as a number.
const SIMP: u32 = 0x7369_6d70;

// Whether `simple(` stands there.
fn simple_at(text: &[u8], at: usize) -> bool
    requires { at < length text.now }
    ensures { SimpleAt text.now at result }
{
    7 <= text.len() - at
        && four(text, at) == SIMP
        && next_is(text, at + 4, b'l')
        && next_is(text, at + 5, b'e')
        && next_is(text, at + 6, b'(')
}

pub(crate) fn simple_value(text: &[u8], place: usize, buf: &mut [u8], pos: usize) -> LeafRead
    requires { place < length text.now }
    ensures { LeafTold text.now buf.old buf.new place pos result }
{
    if simple_at(text, place) {
        return token_leaf(simple_token(text, place, place + 6), place, buf, pos);
    }
    nothing(place)
}
