// Runs of hexadecimal digits, and the bytes that they make two by two. The compiler makes wide steps of the loops over literal
// bounds, as they have no way out and their numbers are bytes.
#![tactic(auto)]

ghost use Rattle.std.specs.Prelude.{◌≡◌, true, ◌+◌, ◌*◌, ◌≤◌, length};
ghost use Rattle.cbor.specs.Utf8.{◌to◌, is_in};
ghost use Rattle.notation.specs.Numbers.{is_digit, digit_value};
ghost use Rattle.literal_body.specs.LiteralAnswers.{Put};
ghost use Rattle.hex_pairs.specs.PairAnswers.{DigitStop, DigitBlock, HexDigits, BlockValues, pair_bytes, PairsPut};

use literal_body::{hex_value, put};

#[tactic(auto, unfolding(cbor::specs::Utf8::is_in))]
fn is_between(b: u8, low: u8, high: u8) -> bool
    ensures { result ≡ is_in (low to high) b }
{
    low <= b && b <= high
}

// The place of a byte if it is no digit, else 32. Tests in a row, of two bounds each: of a match on ranges the compiler makes more steps,
// and the loop over a block then takes nearly twice as long.
fn stop_at(b: u8, i: u8) -> u8
    ensures { DigitStop b i result }
{
    if is_between(b, b'0', b'9') {
        return 32;
    }
    if is_between(b, b'A', b'F') {
        return 32;
    }
    if is_between(b, b'a', b'f') {
        return 32;
    }
    i
}

// How many of 32 bytes are digits, before the first that is none.
fn digit_block(text: &[u8], at: usize) -> u8
    requires { at + 32 ≤ length text.now }
    ensures { DigitBlock text.now at result }
{
    let mut first: u8 = 32;
    for i in 0..32u8 {
        first = first.min(stop_at(text[at + i as usize], i));
    }
    first
}

fn digit_blocks(text: &[u8], from: usize) -> usize
    requires { from ≤ length text.now }
    ensures { HexDigits text.now from result }
{
    // A cursor: where it stops is the answer, so no range counts it.
    let mut at = from;
    while 32 <= text.len() - at {
        let n = digit_block(text, at);
        if n < 32 {
            return at + n as usize;
        }
        at += 32;
    }
    at
}

// Behind the digits from a place on.
pub fn hex_run(text: &[u8], from: usize) -> usize
    requires { from ≤ length text.now }
    ensures { HexDigits text.now from result }
{
    for at in digit_blocks(text, from)..text.len() {
        if 16 <= hex_value(text[at]) {
            return at;
        }
    }
    text.len()
}

// The value of a byte that is a digit.
fn digit(b: u8) -> u8
    requires { is_digit 16 b ≡ true }
    ensures { result ≡ digit_value b }
{
    b % 16 + b / 64 * 9
}

fn values(text: &[u8], from: usize) -> [u8; 32]
    requires { HexDigits text.now from (from + 32) }
    ensures { BlockValues text.now from result }
{
    let mut t = [0u8; 32];
    for i in 0..32 {
        t[i] = digit(text[from + i]);
    }
    t
}

// Writes the sixteen bytes of 32 digits, if they fit, and answers the place behind them.
fn put_block(text: &[u8], from: usize, out: &mut [u8], p: usize) -> usize
    requires { HexDigits text.now from (from + 32) }
    ensures { Put out.old out.new p result (pair_bytes text.now from 16) }
{
    if out.len() < p || out.len() - p < 16 {
        return p;
    }
    let t = values(text, from);
    for j in 0..16 {
        out[p + j] = t[2 * j] * 16 + t[2 * j + 1];
    }
    p + 16
}

fn put_blocks(text: &[u8], from: usize, k: usize, out: &mut [u8], pos: usize) -> usize
    requires { HexDigits text.now from (from + 32 * k) }
    ensures { Put out.old out.new pos result (pair_bytes text.now from (16 * k)) }
{
    let mut p = pos;
    for i in 0..k {
        p = put_block(text, from + 32 * i, out, p);
    }
    p
}

fn put_pair(text: &[u8], at: usize, out: &mut [u8], p: usize) -> usize
    requires { HexDigits text.now at (at + 2) }
    ensures { Put out.old out.new p result (pair_bytes text.now at 1) }
{
    put(out, p, digit(text[at]) * 16 + digit(text[at + 1]))
}

fn put_singly(text: &[u8], from: usize, n: usize, out: &mut [u8], pos: usize) -> usize
    requires { HexDigits text.now from (from + 2 * n) }
    ensures { Put out.old out.new pos result (pair_bytes text.now from n) }
{
    let mut p = pos;
    for i in 0..n {
        p = put_pair(text, from + 2 * i, out, p);
    }
    p
}

// Writes the n bytes that 2n digits from a place on make, if they fit, and answers the place behind them.
pub fn put_pairs(text: &[u8], from: usize, n: usize, out: &mut [u8], pos: usize) -> usize
    requires { HexDigits text.now from (from + 2 * n) }
    ensures { PairsPut text.now from n out.old out.new pos result }
{
    let k = n / 16;
    let p = put_blocks(text, from, k, out, pos);
    put_singly(text, from + 32 * k, n % 16, out, p)
}
