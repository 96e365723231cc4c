// String literals, and strings in chunks.
#![tactic(auto)]

ghost use Rattle.std.specs.Prelude.{◌≡◌, ◌+◌, ◌-◌, length, drop};
ghost use Rattle.notation.specs.Form.{only, chunks, reads};
ghost use Rattle.notation.specs.Reading.{marked};
ghost use Rattle.encoding.specs.ReadAnswers.{chunk_read, chunked_read, kind_for, is_bytes_by, Filled, Opened, Strings, Light, LiteralTold, ReadTold, Stringed, ChunksTold, of_item, of_chunk};

use encoding::answer::{MadeItem, done, listed, refuse, strayed};
use encoding::close::endless;
use encoding::heads::{head_size, initial, major_by};
use head::initial::INDEFINITE_LENGTH;
use refusal::{Refusal, RefusalKind};
use scanning::class::{CLOSE_PAREN, COMMA};
use token::Token;
use token::form::{APOSTROPHED, HEX, QUOTED};
use token::indicator::{INDEFINITE, NONE};
use token::kind::{BYTES, SIMPLE, TEXT};
use tokens::cut::next_token;

// Whether literals of a kind stand for byte strings.
fn is_binary(kind: u8) -> bool
    ensures { result ≡ is_bytes_by kind }
{
    kind != TEXT
}

// What a literal holds.
fn fill(text: &[u8], t: Token, buf: &mut [u8], pos: usize)
    ensures { Filled text.now t buf.old buf.new pos }
{
    let form = t.form;
    match form {
        QUOTED => {
            quoted::read_quoted(text, t.start, b'"', buf, pos);
        }
        APOSTROPHED => {
            quoted::read_quoted(text, t.start, b'\'', buf, pos);
        }
        HEX => {
            hex_body::read_hex(text, t.start, t.stop, buf, pos);
        }
        _ => {
            base64_body::read_base64(text, t.start, t.stop, buf, pos);
        }
    }
}

// A literal's head and what it holds.
fn string(text: &[u8], t: Token, buf: &mut [u8], pos: usize) -> usize
    requires { Light (pos + t.argument) }
    ensures { Stringed text.now t buf.old buf.new pos result }
{
    let first = initial(t);
    let size = head_size(first);
    head::write_head(buf, pos, first, t.argument);
    fill(text, t, buf, pos + size);
    size + t.argument as usize
}

// A literal that is an item.
pub fn literal(text: &[u8], t: Token, buf: &mut [u8], pos: usize) -> Result<MadeItem, Refusal>
    requires { Light (pos + t.argument) }
    ensures { LiteralTold text.now t buf.old buf.new pos result }
{
    if t.indicator == INDEFINITE {
        return endless(buf, pos, initial(t), t.next, 0, is_binary(t.kind), 0);
    }
    let size = string(text, t, buf, pos);
    done(t.next, size, is_binary(t.kind), t.argument as usize)
}

// A chunk of a kind of literals.
fn chunk(
    text: &[u8],
    at: usize,
    kind: u8,
    levels: usize,
    buf: &mut [u8],
    pos: usize,
) -> Result<MadeItem, Refusal>
    requires { Strings text.now at pos kind }
    ensures { ReadTold (of_chunk (kind_for kind)) text.now buf.old buf.new (length (marked text.now) - at) pos result (chunk_read (kind_for kind) levels (drop at (marked text.now))) }
{
    let t = next_token(text, at);
    let found = t.kind;
    if found <= SIMPLE {
        return strayed(levels, t);
    }
    if BYTES < found {
        return strayed(levels, t);
    }
    if t.indicator == INDEFINITE {
        return refuse(RefusalKind::BadIndicator, t.place);
    }
    if found != kind {
        return refuse(RefusalKind::MixedChunks, t.place);
    }
    let size = string(text, t, buf, pos);
    listed(t.next, size, t.argument as usize, NONE)
}

// The chunks of a string up to its parenthesis.
fn chunks(
    text: &[u8],
    from: usize,
    kind: u8,
    levels: usize,
    buf: &mut [u8],
    pos: usize,
) -> Result<MadeItem, Refusal>
    requires { Strings text.now from pos kind }
    ensures { ChunksTold kind text.now buf.old buf.new (length (marked text.now) - from) pos result (reads (chunks (only (kind_for kind)) levels) (drop from (marked text.now))) }
{
    let mut at = from;
    let mut n: usize = 0;
    let mut size: usize = 0;
    loop {
        let m = chunk(text, at, kind, levels, buf, pos + size)?;
        n += m.count;
        size += m.size;
        let t = next_token(text, m.next);
        let found = t.kind;
        if found == CLOSE_PAREN {
            return Ok(MadeItem {
                next: t.next,
                size,
                count: n,
                indicator: NONE,
                binary: is_binary(kind),
                length: n,
            });
        }
        if found != COMMA {
            return strayed(levels, t);
        }
        at = t.next;
    }
}

// A string in chunks behind `(_`.
pub fn chunked(
    text: &[u8],
    at: usize,
    levels: usize,
    buf: &mut [u8],
    pos: usize,
) -> Result<MadeItem, Refusal>
    requires { Opened text.now at pos at }
    ensures { ReadTold of_item text.now buf.old buf.new (length (marked text.now) - at + 1) pos result (chunked_read levels (drop at (marked text.now))) }
{
    let t = next_token(text, at);
    let kind = t.kind;
    if kind <= SIMPLE {
        return strayed(levels, t);
    }
    if BYTES < kind {
        return strayed(levels, t);
    }
    let m = chunks(text, at, kind, levels, buf, pos + 1)?;
    let first = major_by(kind) * 32 + INDEFINITE_LENGTH;
    endless(buf, pos, first, m.next, m.size, m.binary, m.length)
}
