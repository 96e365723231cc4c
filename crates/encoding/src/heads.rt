// The heads of tokens: of integers and simple values, of literals, of tags.
ghost use Rattle.std.specs.Prelude.{◌≡◌};
ghost use Rattle.encoding.specs.ReadAnswers.{Informed, initial_by, MajorBy, HeadSize, HeadWritten, Leafed};

use crate::answer::{MadeItem, done};
use head::initial::{
    BYTE_STRING, IN_EIGHT_BYTES, IN_FOUR_BYTES, IN_ONE_BYTE, IN_TWO_BYTES, INDEFINITE_LENGTH,
    NEGATIVE_INTEGER, SIMPLE_VALUE, TAG, TEXT_STRING, UNSIGNED_INTEGER,
};
use refusal::Refusal;
use token::Token;
use token::indicator::{FOUR_BYTES, IMMEDIATE, INDEFINITE, NONE, ONE_BYTE, TWO_BYTES};
use token::kind::{BYTES, NEGATIVE, SIMPLE, TEXT, UNSIGNED};

// The additional information of a head, by the width of its argument; NONE: the shortest.
pub fn info_by(width: u8, n: u64) -> u8
    ensures { Informed width n result }
{
    match width {
        NONE => head::shortest_info(n),
        INDEFINITE => INDEFINITE_LENGTH,
        IMMEDIATE => (n % 32) as u8,
        ONE_BYTE => IN_ONE_BYTE,
        TWO_BYTES => IN_TWO_BYTES,
        FOUR_BYTES => IN_FOUR_BYTES,
        _ => IN_EIGHT_BYTES,
    }
}

// The major type of a kind of token.
pub fn major_by(kind: u8) -> u8
    ensures { MajorBy kind result }
{
    match kind {
        UNSIGNED => UNSIGNED_INTEGER,
        NEGATIVE => NEGATIVE_INTEGER,
        SIMPLE => SIMPLE_VALUE,
        TEXT => TEXT_STRING,
        BYTES => BYTE_STRING,
        _ => TAG,
    }
}

// The initial byte of a leaf, a literal or a tag.
pub fn initial(t: Token) -> u8
    ensures { result ≡ initial_by t }
{
    let major = major_by(t.kind);
    let info = info_by(t.indicator, t.argument);
    major * 32 + info
}

// How many bytes a head has.
pub fn head_size(initial: u8) -> usize
    ensures { HeadSize initial result }
{
    head::argument_size(initial % 32) + 1
}

// Writes a head, if it fits, and answers its size. Mostly it is one byte.
pub fn put_head(buf: &mut [u8], pos: usize, first: u8, n: u64) -> usize
    ensures { HeadWritten buf.old buf.new pos first n result }
{
    let size = head_size(first);
    if size == 1 {
        buffer::put(buf, pos, first);
        return 1;
    }
    head::write_head(buf, pos, first, n);
    size
}

// A leaf is its head.
pub fn leaf(t: Token, buf: &mut [u8], pos: usize) -> Result<MadeItem, Refusal>
    ensures { Leafed t buf.old buf.new pos result }
{
    let size = put_head(buf, pos, initial(t), t.argument);
    done(t.next, size, false, 0)
}
