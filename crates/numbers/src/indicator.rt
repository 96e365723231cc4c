// The indicator behind a token, and the width that it gives.
ghost use Rattle.std.specs.Prelude.{◌≡◌, ◌≤◌, length};
ghost use Rattle.cbor.specs.Widths.{shortest};
ghost use Rattle.notation.specs.Indicators.{indicated};
ghost use Rattle.notation.specs.Reading.{marked};
ghost use Rattle.scanning.specs.Stands.{span};
ghost use Rattle.scanning.specs.ScanAnswers.{Ran};
ghost use Rattle.notation.specs.Classes.{is_word};
ghost use Rattle.token.specs.TokenAnswers.{width_number, indicator_number};
ghost use Rattle.numbers.specs.NumberAnswers.{Indicated, limit_by, choose_by};

use scanning::scan::{TextCursor, next_is};
use token::indicator::{
    EIGHT_BYTES, FOUR_BYTES, IMMEDIATE, INDEFINITE, MISFIT, NONE, ONE_BYTE, TWO_BYTES, UNKNOWN,
};

#[derive(Drop)]
pub struct Mark {
    pub mark: u8,
    pub next: usize,
}

// What the letters and digits behind `_` name.
fn named(text: &[u8], from: usize, end: usize) -> u8
    requires { Ran text.now is_word from end }
    ensures { result ≡ indicator_number (indicated (span from end (marked text.now))) }
{
    let size = end - from;
    if size == 0 {
        return INDEFINITE;
    }
    if 1 < size {
        return UNKNOWN;
    }
    let b = text[from];
    match b {
        b'i' => IMMEDIATE,
        b'0' => ONE_BYTE,
        b'1' => TWO_BYTES,
        b'2' => FOUR_BYTES,
        b'3' => EIGHT_BYTES,
        _ => UNKNOWN,
    }
}

// The indicator at a place.
pub fn indicator_at(text: &[u8], at: usize) -> Mark
    requires { at ≤ length text.now }
    ensures { Indicated text.now at result }
{
    if next_is(text, at, b'_') {
        let from = at + 1;
        let end = TextCursor { at: from }.word(text);
        let next = end.at;
        return Mark {
            mark: named(text, from, next),
            next,
        };
    }
    Mark {
        mark: NONE,
        next: at,
    }
}

// The largest argument that stands in the initial byte (RFC 8949, section 3).
const LAST_IMMEDIATE: u64 = 23;

fn limit_of(width: u8) -> u64
    ensures { result ≡ limit_by width }
{
    match width {
        IMMEDIATE => LAST_IMMEDIATE,
        ONE_BYTE => 0xff,
        TWO_BYTES => 0xffff,
        FOUR_BYTES => 0xffff_ffff,
        _ => 0xffff_ffff_ffff_ffff,
    }
}

fn shortest(n: u64) -> u8
    ensures { result ≡ width_number (shortest n) }
{
    if n <= LAST_IMMEDIATE {
        return IMMEDIATE;
    }
    if n <= 0xff {
        return ONE_BYTE;
    }
    if n <= 0xffff {
        return TWO_BYTES;
    }
    if n <= 0xffff_ffff {
        return FOUR_BYTES;
    }
    EIGHT_BYTES
}

// The width that an indicator gives an argument, or that it does not fit.
pub fn choose(mark: u8, n: u64) -> u8
    ensures { result ≡ choose_by mark n }
{
    if mark == NONE {
        return shortest(n);
    }
    if mark <= UNKNOWN {
        return MISFIT;
    }
    if n <= limit_of(mark) {
        return mark;
    }
    MISFIT
}
