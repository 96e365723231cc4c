// String literals as they are seldom written: with escapes, blanks, comments, indicators, in base64. What a literal holds is read and written once, behind one
// byte of room, and then its head is put before it.
ghost use Rattle.std.specs.Prelude.{true, false, ◌+◌, ◌-◌, ◌≤◌, ◌<◌, ⊤, MatchOption, length, take, drop};
ghost use Rattle.cbor.specs.Items.{byte_string};
ghost use Rattle.head.specs.HeadAnswers.{head_bytes};
ghost use Rattle.leaf_answer.specs.LeafAnswers.{LeafTold};
ghost use Rattle.plain_string.specs.StringParts.{quoted_kind, QuotedAt};
ghost use Rattle.leaf_reader.specs.LiteralParts.{IsQuote, content_by, EncodedFrom, EncodedThere, ContentTold, HeadBefore, Headed};
ghost use Rattle.literal_body.specs.LiteralReading.{DecodesInto};

use base64_body::read_base64;
use encoding::heads::{head_size, info_by};
use head::initial::BYTE_STRING;
use hex_body::read_hex;
use leaf_answer::{LeafRead, leaf, nothing};
use literal_body::{LiteralScan, scan_body};
use numbers::indicator::{choose, indicator_at};
use plain_string::string::{LONGEST, major_of};
use quoted::read_quoted;
use scanning::scan::next_is;
use token::indicator::MISFIT;

pub(crate) fn is_quote(b: u8) -> bool
    ensures { IsQuote b result }
{
    matches!(b, b'"' | b'\'')
}

// Whether h' stands there.
fn hex_at(text: &[u8], at: usize) -> bool
    requires { at < length text.now }
    ensures { EncodedThere text.now at (at + 2) false result }
{
    next_is(text, at, b'h') && next_is(text, at + 1, b'\'')
}

// Whether b64' stands there.
fn base64_at(text: &[u8], at: usize) -> bool
    requires { at < length text.now }
    ensures { EncodedThere text.now at (at + 4) true result }
{
    next_is(text, at, b'b')
        && next_is(text, at + 1, b'6')
        && next_is(text, at + 2, b'4')
        && next_is(text, at + 3, b'\'')
}

// Where the text of h'..' or b64'..' begins, if such a literal stands there.
fn behind_prefix<const BASE64: bool>(text: &[u8], at: usize) -> Option<usize>
    requires { at < length text.now }
    ensures { MatchOption result ⊤ (λ from. EncodedFrom text.now at from BASE64) }
{
    match BASE64 {
        true if base64_at(text, at) => Some(at + 4),
        false if hex_at(text, at) => Some(at + 2),
        _ => None,
    }
}

// Puts a head before the n bytes that stand behind one byte of room for it, and answers its size.
fn put_before(buf: &mut [u8], pos: usize, first: u8, n: usize) -> usize
    ensures { HeadBefore buf.old buf.new pos (head_bytes first n) n result }
{
    let head = head_size(first);
    if head == 1 {
        buffer::put(buf, pos, first);
    } else {
        buffer::close(buf, pos, first, n as u64, n);
    }
    head
}

// The literal whose content was read and stands behind one byte of room, with the head that its indicator asks for.
fn headed(
    text: &[u8],
    place: usize,
    found: Option<LiteralScan>,
    major: u8,
    binary: bool,
    buf: &mut [u8],
    pos: usize,
) -> LeafRead
    requires { major ≤ 7 }
    ensures { Headed text.now buf.old buf.new place pos major binary found result }
{
    let Some(c) = found else {
        return nothing(place);
    };
    let n = c.size;
    if text.len() < c.next || LONGEST < n {
        return nothing(place);
    }
    let m = indicator_at(text, c.next);
    let width = choose(m.mark, n as u64);
    if width == MISFIT {
        return nothing(place);
    }
    let first = major * 32 + info_by(width, n as u64);
    let head = put_before(buf, pos, first, n);
    leaf(m.next, head + n, binary, n)
}

// What a quoted string holds.
fn quoted_content(
    text: &[u8],
    place: usize,
    quote: u8,
    buf: &mut [u8],
    pos: usize,
) -> Option<LiteralScan>
    requires quoted_at { QuotedAt text.now place quote }
    requires pos_in_bounds { pos < length buf.old }
    ensures { ContentTold text.now buf.old buf.new place pos (quoted_kind quote) result }
{
    read_quoted(text, place + 1, quote, &mut buf[pos + 1..], 0)
}

pub(crate) fn quoted_literal(
    text: &[u8],
    place: usize,
    quote: u8,
    buf: &mut [u8],
    pos: usize,
) -> LeafRead
    requires quoted_at { QuotedAt text.now place quote }
    requires pos_in_bounds { pos < length buf.old }
    ensures { LeafTold text.now buf.old buf.new place pos result }
{
    let c = quoted_content(text, place, quote, buf, pos);
    headed(text, place, c, major_of(quote), quote == b'\'', buf, pos)
}

// What the text of h'..' or b64'..' stands for.
fn read_encoded<const BASE64: bool>(
    text: &[u8],
    at: usize,
    end: usize,
    out: &mut [u8],
    pos: usize,
) -> Option<LiteralScan>
    ensures { DecodesInto out.old out.new pos result (content_by BASE64 (take (end - at) (drop at text.now))) }
{
    if BASE64 {
        read_base64(text, at, end, out, pos)
    } else {
        read_hex(text, at, end, out, pos)
    }
}

// What h'..' or b64'..' holds, whose text begins at `at`. Each has an instance of its own, as what is called in two places is not inlined.
fn encoded_content<const BASE64: bool>(
    text: &[u8],
    place: usize,
    at: usize,
    buf: &mut [u8],
    pos: usize,
) -> Option<LiteralScan>
    requires encoded_from { EncodedFrom text.now place at BASE64 }
    requires pos_in_bounds { pos < length buf.old }
    ensures { ContentTold text.now buf.old buf.new place pos byte_string result }
{
    let next = scan_body(text, at)?.next;
    let c = read_encoded::<BASE64>(text, at, next - 1, &mut buf[pos + 1..], 0)?;
    Some(LiteralScan { next, size: c.size })
}

pub(crate) fn encoded_literal<const BASE64: bool>(
    text: &[u8],
    at: usize,
    buf: &mut [u8],
    pos: usize,
) -> LeafRead
    requires at_in_bounds { at < length text.now }
    requires pos_in_bounds { pos < length buf.old }
    ensures { LeafTold text.now buf.old buf.new at pos result }
{
    let Some(from) = behind_prefix::<BASE64>(text, at) else {
        return nothing(at);
    };
    let c = encoded_content::<BASE64>(text, at, from, buf, pos);
    headed(text, at, c, BYTE_STRING, true, buf, pos)
}
