// Quoted strings with no escape, and h'..' with nothing but digits.
ghost use Rattle.std.specs.Prelude.{◌≡◌, ◌+◌, ◌≤◌, min, take, drop};
ghost use Rattle.leaf_answer.specs.LeafAnswers.{LeafTold};
ghost use Rattle.plain_string.specs.StringParts.{TextPart, WrittenBehind, StringMade, StringMajor, QuotedAt, HexPart, PairsBehind, HexMade, HexAt};

use crate::block::{is_short, put_short, put_short_hex};
use head::initial::{BYTE_STRING, TEXT_STRING};
use hex_pairs::{hex_run, put_pairs};
use leaf_answer::{LeafRead, leaf, odd};
use leaf_head::put_head;
use scanning::run::text_run;
use scanning::scan::next_is;

// Of a longer string the size might wrap. There is none in a text that the library reads.
pub const LONGEST: usize = 0xffff_ffff;

// A string that is read by one block of 32 bytes: the longest whose head is one byte, and the longest that so many digits make; the room for each, with
// its head and what is too much.
const SHORT: usize = 23;

const SHORT_ROOM: usize = 33;

const SHORT_HEX: usize = 16;

const SHORT_HEX_ROOM: usize = 17;

// Writes n bytes of the text behind a head, if they fit.
fn copy_behind(text: &[u8], from: usize, n: usize, buf: &mut [u8], pos: usize, head: usize)
    requires { TextPart text.now from n }
    ensures { WrittenBehind buf.old buf.new pos head (take n (drop from text.now)) }
{
    if buf.len() < head || buf.len() - head < pos {
        return;
    }
    buffer::copy_at(&text[from..], n, buf, pos + head);
}

// Writes a string of n bytes of the text, if it fits, and answers its size.
fn put_string(text: &[u8], from: usize, n: usize, major: u8, buf: &mut [u8], pos: usize) -> usize
    requires text_part { TextPart text.now from n }
    requires major_bound { major ≤ 7 }
    ensures { StringMade buf.old buf.new pos major (take n (drop from text.now)) result }
{
    if is_short(n, SHORT, text.len(), from, buf.len(), pos, SHORT_ROOM) {
        put_short(text, from, n, major, buf, pos);
        return n + 1;
    }
    let head = put_head(buf, pos, major, n as u64);
    copy_behind(text, from, n, buf, pos, head);
    head + n
}

// Where what stands behind a head begins in a buffer of a size; its end, if that comes first.
fn behind(size: usize, pos: usize, head: usize) -> usize
    ensures { result ≡ min (pos + head) size }
{
    pos.saturating_add(head).min(size)
}

// Writes the n bytes that digits of the text make behind a head, if they fit.
fn pairs_behind(text: &[u8], from: usize, n: usize, buf: &mut [u8], pos: usize, head: usize)
    requires { HexPart text.now from n }
    ensures { PairsBehind text.now from n buf.old buf.new pos head }
{
    let start = behind(buf.len(), pos, head);
    put_pairs(text, from, n, &mut buf[start..], 0);
}

// Writes a string of the n bytes that digits of the text make, if it fits, and answers its size.
fn put_hex(text: &[u8], from: usize, n: usize, buf: &mut [u8], pos: usize) -> usize
    requires { HexPart text.now from n }
    ensures { HexMade text.now from n buf.old buf.new pos result }
{
    if is_short(
        n,
        SHORT_HEX,
        text.len(),
        from,
        buf.len(),
        pos,
        SHORT_HEX_ROOM,
    ) {
        put_short_hex(text, from, n, buf, pos);
        return n + 1;
    }
    let head = put_head(buf, pos, BYTE_STRING, n as u64);
    pairs_behind(text, from, n, buf, pos, head);
    head + n
}

pub fn major_of(quote: u8) -> u8
    ensures { StringMajor quote result }
{
    if quote == b'"' {
        TEXT_STRING
    } else {
        BYTE_STRING
    }
}

// The string at a place, where its quote stands.
pub fn quoted(text: &[u8], place: usize, quote: u8, buf: &mut [u8], pos: usize) -> LeafRead
    requires { QuotedAt text.now place quote }
    ensures { LeafTold text.now buf.old buf.new place pos result }
{
    let at = place + 1;
    let end = text_run(text, at, quote, b'\\');
    if !next_is(text, end, quote) || next_is(text, end + 1, b'_') {
        return odd(place);
    }
    let n = end - at;
    if LONGEST < n {
        return odd(place);
    }
    let size = put_string(text, at, n, major_of(quote), buf, pos);
    leaf(end + 1, size, quote == b'\'', n)
}

// The string at a place, where h' stands.
pub fn hexadecimal(text: &[u8], place: usize, buf: &mut [u8], pos: usize) -> LeafRead
    requires { HexAt text.now place }
    ensures { LeafTold text.now buf.old buf.new place pos result }
{
    let at = place + 2;
    let end = hex_run(text, at);
    if !next_is(text, end, b'\'') || next_is(text, end + 1, b'_') || (end - at) % 2 != 0 {
        return odd(place);
    }
    let n = (end - at) / 2;
    if LONGEST < n {
        return odd(place);
    }
    let size = put_hex(text, at, n, buf, pos);
    leaf(end + 1, size, true, n)
}
