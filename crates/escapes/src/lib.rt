// What stands behind a backslash in a quoted string.
#![tactic(auto)]

ghost use Rattle.notation.specs.Quoted.{no_surrogate, unicode, paired};
ghost use Rattle.escapes.specs.EscapeAnswers.{Surrogate, Escaped, UnitAt, Escapes, EscapesUnquoted};

use literal_body::hex_value;
use scanning::scan::next_is;

// What an escape stands for, and where the text goes on.
#[derive(Drop)]
pub struct ReadEscape {
    pub next: usize,
    pub point: u32,
}

// The byte that a letter behind a backslash stands for.
fn escaped(b: u8) -> Option<u8>
    ensures { Escaped b result }
{
    match b {
        b'\\' | b'/' => Some(b),
        b'b' => Some(0x08),
        b'f' => Some(0x0c),
        b'n' => Some(b'\n'),
        b'r' => Some(b'\r'),
        b't' => Some(b'\t'),
        _ => None,
    }
}

// The digits of a code unit.
const DIGITS: usize = 4;

// The code unit that the four digits at a place make. What is no digit has a value above theirs, so that one test tells of all four.
fn read_unit(text: &[u8], at: usize) -> Option<u32>
    ensures { UnitAt text.now at result }
{
    if text.len() < DIGITS || text.len() - DIGITS < at {
        return None;
    }
    let a = hex_value(text[at]);
    let b = hex_value(text[at + 1]);
    let c = hex_value(text[at + 2]);
    let d = hex_value(text[at + 3]);
    if 16 <= a.max(b).max(c).max(d) {
        return None;
    }
    Some(a as u32 * 0x1000 + b as u32 * 0x100 + c as u32 * 0x10 + d as u32)
}

// The high surrogates begin, then the low ones; behind these are characters again.
const HIGH: u32 = 0xd800;

const LOW: u32 = 0xdc00;

const BEYOND: u32 = 0xe000;

// A code point of two units: `\u` and the low surrogate, which must stand behind the high one.
fn read_low(text: &[u8], at: usize, high: u32) -> Option<ReadEscape>
    requires { Surrogate high }
    ensures { Escapes text.now (paired high) at result }
{
    if !next_is(text, at, b'\\') || !next_is(text, at + 1, b'u') {
        return None;
    }
    let low = read_unit(text, at + 2)?;
    if low < LOW || BEYOND <= low {
        return None;
    }
    Some(ReadEscape {
        next: at + 6,
        point: 0x10000 + (high - HIGH) * 0x400 + (low - LOW),
    })
}

// Behind `\u`: surrogates only in a right pair.
fn read_unicode(text: &[u8], at: usize) -> Option<ReadEscape>
    ensures { Escapes text.now (unicode 4 0 no_surrogate) at result }
{
    let unit = read_unit(text, at)?;
    if (HIGH..LOW).contains(&unit) {
        return read_low(text, at + 4, unit);
    }
    if (LOW..BEYOND).contains(&unit) {
        return None;
    }
    Some(ReadEscape {
        next: at + 4,
        point: unit,
    })
}

// Behind a backslash, where no quote stands.
pub fn read_escape(text: &[u8], at: usize) -> Option<ReadEscape>
    ensures { EscapesUnquoted text.now at result }
{
    let b = *text.get(at)?;
    if b == b'u' {
        return read_unicode(text, at + 1);
    }
    Some(ReadEscape {
        next: at + 1,
        point: escaped(b)? as u32,
    })
}
