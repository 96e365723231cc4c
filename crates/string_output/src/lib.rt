// The bytes of a string into a buffer, as they stand between its quotes: a text string's escaped, a byte string's in hexadecimal.
#![tactic(auto)]

ghost use Rattle.std.specs.Prelude.{[], ◌∷◌, true, false, ◌+◌, ◌≤◌, length};
ghost use Rattle.notation.specs.Printing.{escape_of};
ghost use Rattle.text_output.specs.PrintParts.{Prints, content_of};
ghost use Rattle.plain_bytes.specs.Runs.{AllPlain};
ghost use Rattle.string_output.specs.Blocks.{Beyond};

use hex_output::{hex_byte, hex_pairs};
use plain_bytes::{BLOCK, is_plain, plain_end};
use text_output::{put, put_all};

// BYTE BY BYTE

// A byte of text behind a backslash.
fn backslashed(b: u8, out: &mut [u8], pos: usize) -> usize
    ensures { Prints out.old out.new pos (0x5c ∷ b ∷ []) result }
{
    let p = put(out, pos, b'\\');
    put(out, p, b)
}

// A byte of text between quotes.
fn escaped(b: u8, out: &mut [u8], pos: usize) -> usize
    ensures { Prints out.old out.new pos (escape_of b) result }
{
    match b {
        b'"' | b'\\' => backslashed(b, out, pos),
        0x00..=0x1f => {
            let p = put_all(b"\\u00", out, pos);
            hex_byte(b, out, p)
        }
        _ => put(out, pos, b),
    }
}

// A byte of a string.
fn content_byte(text: bool, b: u8, out: &mut [u8], pos: usize) -> usize
    ensures { Prints out.old out.new pos (content_of text (b ∷ [])) result }
{
    if text {
        escaped(b, out, pos)
    } else {
        hex_byte(b, out, pos)
    }
}

// The bytes of a string, one by one.
fn content_bytes(bytes: &[u8], text: bool, out: &mut [u8], pos: usize) -> usize
    ensures { Prints out.old out.new pos (content_of text bytes.now) result }
{
    let mut p = pos;
    for &b in bytes {
        p = content_byte(text, b, out, p);
    }
    p
}

// BLOCKS of a content

// Bytes as they are, for which there is room. Of the loop the compiler makes wide steps; `copy_from_slice` would call memmove, which the library asks of no caller.
fn copy(bytes: &[u8], out: &mut [u8], pos: usize) -> usize
    requires { pos + length bytes.now ≤ length out.old }
    ensures { Prints out.old out.new pos bytes.now result }
{
    for (i, &b) in bytes.iter().enumerate() {
        out[pos + i] = b;
    }
    pos + bytes.len()
}

// A run of bytes that stand for themselves.
fn run(bytes: &[u8], out: &mut [u8], pos: usize) -> usize
    requires { AllPlain bytes.now }
    ensures { Prints out.old out.new pos (content_of true bytes.now) result }
{
    if pos <= out.len() && bytes.len() <= out.len() - pos {
        copy(bytes, out, pos)
    } else {
        content_bytes(bytes, true, out, pos)
    }
}

// A part of a text string.
fn part(bytes: &[u8], out: &mut [u8], pos: usize) -> usize
    ensures { Prints out.old out.new pos (content_of true bytes.now) result }
{
    if is_plain(bytes) {
        run(bytes, out, pos)
    } else {
        content_bytes(bytes, true, out, pos)
    }
}

// A block further, or at the end.
fn block_end(at: usize, size: usize) -> usize
    requires { at ≤ size }
    ensures { Beyond at size result }
{
    at + BLOCK.min(size - at)
}

fn text_content(bytes: &[u8], out: &mut [u8], pos: usize) -> usize
    ensures { Prints out.old out.new pos (content_of true bytes.now) result }
{
    let mut p = pos;
    let mut i: usize = 0;
    while i < bytes.len() {
        let end = plain_end(bytes, i);
        p = run(&bytes[i..end], out, p);
        let next = block_end(end, bytes.len());
        p = part(&bytes[end..next], out, p);
        i = next;
    }
    p
}

fn hex_content(bytes: &[u8], out: &mut [u8], pos: usize) -> usize
    ensures { Prints out.old out.new pos (content_of false bytes.now) result }
{
    if pos <= out.len() && bytes.len() <= (out.len() - pos) / 2 {
        hex_pairs(bytes, out, pos)
    } else {
        content_bytes(bytes, false, out, pos)
    }
}

// The bytes of a string between its quotes: a text string's escaped, a byte string's in hexadecimal.
pub fn content(bytes: &[u8], text: bool, out: &mut [u8], pos: usize) -> usize
    ensures { Prints out.old out.new pos (content_of text bytes.now) result }
{
    if text {
        text_content(bytes, out, pos)
    } else {
        hex_content(bytes, out, pos)
    }
}
