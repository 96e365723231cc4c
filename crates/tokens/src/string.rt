// String literals as tokens.
ghost use Rattle.std.specs.Prelude.{◌≡◌, ◌+◌, ◌-◌, ◌<◌, length, take, drop, get_or};
ghost use Rattle.notation.specs.Literals.{quoted, encoded_literal};
ghost use Rattle.notation.specs.Words.{prefixed, word};
ghost use Rattle.notation.specs.Reading.{marked};
ghost use Rattle.scanning.specs.Stands.{span};
ghost use Rattle.literal_body.specs.LiteralAnswers.{Decodes};
ghost use Rattle.token.specs.TokenAnswers.{Says, kind_code};
ghost use Rattle.words.specs.WordAnswers.{Enclosed};
ghost use Rattle.tokens.specs.CutAnswers.{quote_kind, quote_byte, literal_content, QuotedAt, EncodedAt, Literally, Quotedly};

use base64_body::scan_base64;
use hex_body::scan_hex;
use literal_body::{LiteralScan, scan_body};
use numbers::indicator::{Mark, choose, indicator_at};
use quoted::scan_quoted;
use scanning::scan::{TextCursor, next_is};
use token::form::{HEX, QUOTED};
use token::indicator::{INDEFINITE, MISFIT};
use token::kind::{BYTES, TEXT};
use token::reason::{BAD_CONTENT, BAD_INDICATOR, NO_REFUSAL, NOTHING};
use token::{Token, refuse};
use words::{prefix_word, worded};

fn kind_of(form: u8) -> u8
    ensures { result ≡ kind_code (quote_kind form) }
{
    if form == QUOTED { TEXT } else { BYTES }
}

fn quote_of(form: u8) -> u8
    ensures { result ≡ quote_byte form }
{
    if form == QUOTED { b'"' } else { b'\'' }
}

// A literal of `size` bytes: 9, or the token.
fn literal(
    form: u8,
    mark: u8,
    size: usize,
    start: usize,
    stop: usize,
    place: usize,
    next: usize,
) -> Token
    ensures { Literally form mark size start stop place next result }
{
    let width = choose(mark, size as u64);
    if width == MISFIT {
        return refuse(BAD_INDICATOR, place);
    }
    Token {
        kind: kind_of(form),
        refusal: NO_REFUSAL,
        indicator: width,
        argument: size as u64,
        form,
        start,
        stop,
        place,
        next,
    }
}

// A quoted one: `_` alone may stand behind an empty one.
fn quoted_token(form: u8, size: usize, start: usize, place: usize, m: Mark) -> Token
    ensures { Quotedly form size start place m result }
{
    let mark = m.mark;
    let next = m.next;
    if mark == INDEFINITE {
        if size == 0 {
            return Token {
                kind: kind_of(form),
                refusal: NO_REFUSAL,
                indicator: INDEFINITE,
                argument: 0,
                form,
                start,
                stop: 0,
                place,
                next,
            };
        }
        return refuse(BAD_INDICATOR, place);
    }
    literal(form, mark, size, start, 0, place, next)
}

pub(crate) fn quoted(text: &[u8], place: usize, form: u8) -> Token
    requires { QuotedAt text.now place form }
    ensures { Says text.now place result (quoted (quote_kind form) (quote_byte form) (drop (place + 1) (marked text.now))) }
{
    let at = place + 1;
    let Some(q) = scan_quoted(text, at, quote_of(form)) else {
        return refuse(NOTHING, place);
    };
    let m = indicator_at(text, q.next);
    quoted_token(form, q.size, at, place, m)
}

fn scan_encoded(text: &[u8], at: usize, end: usize, form: u8) -> Option<LiteralScan>
    ensures { Decodes result (literal_content form (take (end - at) (drop at text.now))) }
{
    if form == HEX {
        scan_hex(text, at, end)
    } else {
        scan_base64(text, at, end)
    }
}

// Behind `h'` or `b64'`: 3, then 8, then 9.
fn encoded(text: &[u8], place: usize, at: usize, form: u8) -> Token
    requires { EncodedAt text.now at form }
    ensures { Says text.now place result (encoded_literal (literal_content form) (drop at (marked text.now))) }
{
    let Some(raw) = scan_body(text, at) else {
        return refuse(NOTHING, place);
    };
    let m = indicator_at(text, raw.next);
    let stop = raw.next - 1;
    let Some(c) = scan_encoded(text, at, stop, form) else {
        return refuse(BAD_CONTENT, place);
    };
    literal(form, m.mark, c.size, at, stop, place, m.next)
}

// A word with `'` behind it.
fn prefixed(text: &[u8], place: usize, end: usize) -> Token
    requires { Enclosed text.now place end }
    ensures { Says text.now place result (prefixed (span place end (marked text.now)) (drop (end + 1) (marked text.now))) }
{
    match prefix_word(text, place, end) {
        Ok(form) => encoded(text, place, end + 1, form),
        Err(reason) => refuse(reason, place),
    }
}

// A word: a simple value, or the prefix of a literal.
pub(crate) fn word(text: &[u8], place: usize) -> Token
    requires { place < length text.now }
    ensures { Says text.now place result (word (get_or text.now place 0) (drop (place + 1) (marked text.now))) }
{
    let end = TextCursor { at: place + 1 }.word(text);
    let next = end.at;
    if next_is(text, next, b'\'') {
        return prefixed(text, place, next);
    }
    worded(text, place, next)
}
