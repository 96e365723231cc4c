// Fills a buffer from the fields of a row: bytes and texts, and the steps of a path. Each function is given how much is filled, and
// answers how much is filled then; None where a field cannot be read, or has no room.
ghost use Rattle.std.specs.Prelude.{◌+◌, ◌≤◌, ◌<◌, length, IfSome};

use crate::cut::{field, find, number, part};

// How a field has its bytes: as a text, or in hexadecimal.
#[derive(Clone, Copy, PartialEq, Eq)]
pub enum Form {
    Text,
    Hex,
}

fn put(v: u8, n: usize, out: &mut [u8]) -> Option<usize> {
    *out.get_mut(n)? = v;
    Some(n + 1)
}

// Bytes as they are.
pub fn copy(s: &[u8], out: &mut [u8]) -> Option<usize> {
    out.get_mut(..s.len())?.copy_from_slice(s);
    Some(s.len())
}

// The value of a digit.
fn digit(b: u8) -> Option<u8>
    ensures { IfSome result (λ v. v < 16) }
{
    match b {
        b'0'..=b'9' => Some(b - b'0'),
        b'a'..=b'f' => Some(b - b'a' + 10),
        _ => None,
    }
}

// The bytes of digits, at least two of them.
fn digits(s: &[u8], mut n: usize, out: &mut [u8]) -> Option<usize> {
    if s.is_empty() {
        return None;
    }
    for pair in s.chunks(2) {
        let [high, low] = pair else {
            return None;
        };
        n = put(digit(*high)? * 16 + digit(*low)?, n, out)?;
    }
    Some(n)
}

// The same, some times.
fn repeated(s: &[u8], times: usize, mut n: usize, out: &mut [u8]) -> Option<usize> {
    for _ in 0..times {
        n = digits(s, n, out)?;
    }
    Some(n)
}

// Two digits; or `x`, digits, `*`, a number and `.`.
fn piece(s: &[u8], n: usize, out: &mut [u8]) -> Option<usize> {
    if s.len() == 2 {
        return digits(s, n, out);
    }
    let star = find(s, 0, b'*');
    let times = number(part(s, star + 1, find(s, star, b'.')))?;
    repeated(part(s, 1, star), times, n, out)
}

// How long the piece at the front is, if there is one.
fn piece_length(s: &[u8]) -> usize
    ensures { (0 < result) × (result ≤ 2 + length s.now) }
{
    if s.first() == Some(&b'x') {
        return find(s, 0, b'.') + 1;
    }
    2
}

// How long the element at the front is, if there is one.
fn element_length(form: Form, s: &[u8]) -> usize
    ensures { 0 < result }
{
    match (form, s) {
        (Form::Hex, _) => piece_length(s),
        (Form::Text, [b'~', rest @ ..]) => piece_length(rest) + 1,
        (Form::Text, _) => 1,
    }
}

// One element: a piece, in a text behind `~`; any other byte of a text stands for itself.
fn element(form: Form, s: &[u8], n: usize, out: &mut [u8]) -> Option<usize> {
    match (form, s) {
        (Form::Hex, _) => piece(s, n, out),
        (Form::Text, [b]) => put(*b, n, out),
        (Form::Text, [_, rest @ ..]) => piece(rest, n, out),
        (Form::Text, []) => None,
    }
}

fn elements(form: Form, s: &[u8], mut n: usize, out: &mut [u8]) -> Option<usize> {
    let mut left = s;
    while !left.is_empty() {
        let (front, rest) = left.split_at_checked(element_length(form, left))?;
        n = element(form, front, n, out)?;
        left = rest;
    }
    Some(n)
}

// The bytes of a field. No bytes are `~` in a text and `-` in hexadecimal.
pub fn fill(form: Form, s: &[u8], n: usize, out: &mut [u8]) -> Option<usize> {
    match (form, s) {
        (_, []) => None,
        (Form::Text, b"~") | (Form::Hex, b"-") => Some(n),
        _ => elements(form, s, n, out),
    }
}

// The bytes of the field number k of a line.
pub fn fill_field(form: Form, line: &[u8], k: usize, n: usize, out: &mut [u8]) -> Option<usize> {
    fill(form, field(line, k), n, out)
}

// A blank, where one is to be.
fn blank(is_there: bool, n: usize, out: &mut [u8]) -> Option<usize> {
    if is_there { put(b' ', n, out) } else { Some(n) }
}

// A text of three fields, of which that in the middle is number k, perhaps with a blank before it and behind it.
pub fn fill_around(line: &[u8], blanks: bool, k: usize, out: &mut [u8]) -> Option<usize> {
    let before = fill_field(Form::Text, line, 1, 0, out)?;
    let start = blank(blanks, before, out)?;
    let item = fill_field(Form::Text, line, k, start, out)?;
    let end = blank(blanks, item, out)?;
    fill_field(Form::Text, line, 3, end, out)
}

// The steps of a path, with dots between; `-` is none.
pub fn path(s: &[u8], out: &mut [u16]) -> Option<usize> {
    if let b"-" = s {
        return Some(0);
    }
    let mut n = 0;
    for step in s.split(|b| *b == b'.') {
        *out.get_mut(n)? = u16::try_from(number(step)?).ok()?;
        n += 1;
    }
    Some(n)
}
