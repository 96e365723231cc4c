// Leaves, read and written at once: first as they are mostly written, then as they seldom are. What is neither is left to the token cutter.
#![tactic(auto)]

mod by_token;
mod literal;

ghost use Rattle.leaf_answer.specs.LeafAnswers.{LeafTold};
ghost use Rattle.leaf_reader.specs.Starts.{StartsAs};

use crate::by_token::{other_integer, simple_value};
use crate::literal::{encoded_literal, is_quote, quoted_literal};
use leaf_answer::{Found, LeafRead, again, nothing, odd};
use plain_leaf::integer::signed;
use plain_leaf::word::word;
use plain_string::string::{hexadecimal, quoted};
use scanning::scan::next_is;

// What a leaf may begin with.
#[derive(Drop)]
enum Start {
    Integer,
    Quoted,
    Hex,
    Word,
    Odd,
    Other,
}

// One jump by the byte tells them apart.
fn start_of(b: u8) -> Start
    ensures { StartsAs b result }
{
    match b {
        b'"' | b'\'' => Start::Quoted,
        b'-' | b'0'..=b'9' => Start::Integer,
        b'f' | b'n' | b't' | b'u' => Start::Word,
        b'h' => Start::Hex,
        b'b' | b's' => Start::Odd,
        _ => Start::Other,
    }
}

// The leaf at a place as it is mostly written, its bytes into the buffer from pos on, if they fit.
pub fn read_leaf(text: &[u8], at: usize, buf: &mut [u8], pos: usize) -> LeafRead
    ensures { LeafTold text.now buf.old buf.new at pos result }
{
    if text.len() <= at {
        return nothing(at);
    }
    let b = text[at];
    match start_of(b) {
        Start::Integer => signed(text, at, b == b'-', buf, pos),
        Start::Quoted => quoted(text, at, b, buf, pos),
        Start::Word => word(text, at, buf, pos),
        Start::Hex if next_is(text, at + 1, b'\'') => hexadecimal(text, at, buf, pos),
        Start::Hex | Start::Odd => odd(at),
        Start::Other => nothing(at),
    }
}

// The leaf at a place as it is seldom written. It is called in more than one place, so that it is not inlined where leaves are read.
pub fn read_odd(text: &[u8], at: usize, buf: &mut [u8], pos: usize) -> LeafRead
    ensures { LeafTold text.now buf.old buf.new at pos result }
{
    if text.len() <= at || buf.len() <= pos {
        return nothing(at);
    }
    let b = text[at];
    match b {
        _ if is_quote(b) => again(quoted_literal(text, at, b, buf, pos)),
        b'h' => again(encoded_literal::<false>(text, at, buf, pos)),
        b'b' => again(encoded_literal::<true>(text, at, buf, pos)),
        b's' => again(simple_value(text, at, buf, pos)),
        _ => again(other_integer(text, at, b == b'-', buf, pos)),
    }
}

// What may be a leaf, read as it is seldom written.
pub fn odd_leaf(text: &[u8], at: usize, found: Found, buf: &mut [u8], pos: usize) -> LeafRead
    ensures { LeafTold text.now buf.old buf.new at pos result }
{
    match found {
        Found::Odd => read_odd(text, at, buf, pos),
        Found::Leaf | Found::Tag | Found::Nothing => nothing(at),
    }
}
