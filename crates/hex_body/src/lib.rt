// Hexadecimal text: what stands between the quotes of h'..'.
#![tactic(auto)]

ghost use Rattle.std.specs.Prelude.{◌-◌, take, drop};
ghost use Rattle.notation.specs.Literals.{hex_content};
ghost use Rattle.literal_body.specs.LiteralAnswers.{Decodes};
ghost use Rattle.literal_body.specs.LiteralReading.{Before, Within, Progressed, DecodesInto};
ghost use Rattle.hex_body.specs.HexAnswers.{ByteRead};

use hex_gaps::{after_blank, past_gap, past_gaps};
use hex_pairs::{hex_run, put_pairs};
use hex_weight::{NO_PAIR, pair};
use literal_body::{LiteralScan, Progress, hex_value, put};

// Writes pairs that stand side by side or with blanks and comments between.
fn put_close(text: &[u8], from: usize, stop: usize, out: &mut [u8], pos: usize) -> Progress
    requires { Within text.now from stop }
    ensures { Progressed hex_content text.now stop from out.old out.new pos result }
{
    let mut at = from;
    let mut p = pos;
    let mut size: usize = 0;
    while 2 <= stop - at {
        let w = pair(text, at);
        if w < NO_PAIR {
            p = put(out, p, w as u8);
            size += 1;
            at = after_blank(text, at + 2, stop);
        } else {
            let next = past_gap(text, at, stop);
            if next == at {
                break;
            }
            at = next;
        }
    }
    Progress {
        next: at,
        pos: p,
        size,
    }
}

// What comes next: a byte, and the place behind it; nothing but blanks and comments up to the end; or what stands for no byte.
#[derive(Clone, Copy)]
enum NextByte {
    Byte { value: u8, next: usize },
    End,
    Wrong,
}

// The next byte, whatever stands before and between its digits.
fn next_byte(text: &[u8], from: usize, stop: usize) -> NextByte
    requires { Within text.now from stop }
    ensures { ByteRead text.now stop from result }
{
    let i = past_gaps(text, from, stop);
    if stop <= i {
        return NextByte::End;
    }
    let high = hex_value(text[i]);
    if 16 <= high {
        return NextByte::Wrong;
    }
    let j = past_gaps(text, i + 1, stop);
    if stop <= j {
        return NextByte::Wrong;
    }
    let low = hex_value(text[j]);
    if 16 <= low {
        return NextByte::Wrong;
    }
    NextByte::Byte {
        value: high * 16 + low,
        next: j + 1,
    }
}

// Whether so few digits stand together that no run is looked for: fewer than three, or near the end.
fn few(text: &[u8], at: usize, stop: usize) -> bool
    requires { Before text.now at stop }
{
    stop - at < 32 || 16 <= hex_value(text[at + 1]) || 16 <= hex_value(text[at + 2])
}

// Writes the digits at the front, if they are many, and passes a blank behind them.
fn put_front(text: &[u8], at: usize, stop: usize, out: &mut [u8], pos: usize) -> Progress
    requires { Before text.now at stop }
    ensures { Progressed hex_content text.now stop at out.old out.new pos result }
{
    if few(text, at, stop) {
        return Progress {
            next: at,
            pos,
            size: 0,
        };
    }
    let n = (hex_run(text, at).min(stop) - at) / 2;
    let p = put_pairs(text, at, n, out, pos);
    Progress {
        next: after_blank(text, at + 2 * n, stop),
        pos: p,
        size: n,
    }
}

// Writes the bytes from a place on whose digits stand close together.
fn put_stretch(text: &[u8], at: usize, stop: usize, out: &mut [u8], pos: usize) -> Progress
    requires { Before text.now at stop }
    ensures { Progressed hex_content text.now stop at out.old out.new pos result }
{
    let front = put_front(text, at, stop, out, pos);
    let close = put_close(text, front.next, stop, out, front.pos);
    Progress {
        next: close.next,
        pos: close.pos,
        size: front.size + close.size,
    }
}

// Whether the text from `at` to `end` stands for bytes, and for how many; these are written from `pos` on, if they all fit.
pub fn read_hex(
    text: &[u8],
    at: usize,
    end: usize,
    out: &mut [u8],
    pos: usize,
) -> Option<LiteralScan>
    ensures { DecodesInto out.old out.new pos result (hex_content (take (end - at) (drop at text.now))) }
{
    let stop = end.min(text.len());
    let mut i = at;
    let mut p = pos;
    let mut size: usize = 0;
    while i < stop {
        let run = put_stretch(text, i, stop, out, p);
        size += run.size;
        match next_byte(text, run.next, stop) {
            NextByte::Byte { value, next } => {
                p = put(out, run.pos, value);
                size += 1;
                i = after_blank(text, next, stop);
            }
            NextByte::End => break,
            NextByte::Wrong => return None,
        }
    }
    Some(LiteralScan { next: end, size })
}

// The same, and nothing is written.
pub fn scan_hex(text: &[u8], at: usize, end: usize) -> Option<LiteralScan>
    ensures { Decodes result (hex_content (take (end - at) (drop at text.now))) }
{
    read_hex(text, at, end, &mut [], 0)
}
