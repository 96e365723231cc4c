// Quoted strings: the content between the quotes, with its escapes.
#![tactic(auto)]

ghost use Rattle.std.specs.Prelude.{◌-◌, ◌≤◌, length, take, drop};
ghost use Rattle.notation.specs.Quoted.{character, unquote};
ghost use Rattle.notation.specs.Reading.{marked};
ghost use Rattle.scanning.specs.TextRuns.{TextRun};
ghost use Rattle.literal_body.specs.LiteralAnswers.{Scans, Quotes, Put};
ghost use Rattle.quoted.specs.QuotedAnswers.{Part, AtPiece, AtPlain, PieceGiven, Pieced};

use code_point::{point_size, put_point};
use escapes::read_escape;
use literal_body::{LiteralScan, put};
use scanning::run::text_run;
use scanning::scan::next_is;

// Writes a part of a text, if it fits, and answers the place behind it.
fn put_part(text: &[u8], from: usize, end: usize, out: &mut [u8], p: usize) -> usize
    requires { Part text.now from end }
    ensures { Put out.old out.new p result (take (end - from) (drop from text.now)) }
{
    let n = end - from;
    if out.len() < n || out.len() - n < p {
        return p;
    }
    buffer::copy_at(&text[from..], n, out, p);
    p + n
}

// A piece of a string that was written: where the text goes on, how many bytes the piece has, and the place behind it in the buffer.
#[derive(Drop)]
struct ReadPiece {
    next: usize,
    size: usize,
    pos: usize,
}

// At a backslash.
fn escape_piece(text: &[u8], at: usize, quote: u8, out: &mut [u8], p: usize) -> Option<ReadPiece>
    requires { AtPiece text.now quote at 0x5c }
    ensures { Pieced text.now quote at out.old out.new p result }
{
    if next_is(text, at + 1, quote) {
        return Some(ReadPiece {
            next: at + 2,
            size: 1,
            pos: put(out, p, quote),
        });
    }
    let e = read_escape(text, at + 1)?;
    Some(ReadPiece {
        next: e.next,
        size: point_size(e.point),
        pos: put_point(out, p, e.point),
    })
}

// The end of a run. Before an escape no block is looked at, as between escapes the runs are short.
fn run_end(text: &[u8], from: usize, quote: u8) -> usize
    requires { from ≤ length text.now }
    ensures { TextRun text.now quote 0x5c from result }
{
    if next_is(text, from, b'\\') {
        return from;
    }
    text_run(text, from, quote, b'\\')
}

// At a byte that stands for itself.
fn plain_piece(text: &[u8], at: usize, quote: u8, out: &mut [u8], p: usize) -> ReadPiece
    requires { AtPlain text.now quote at }
    ensures { PieceGiven text.now quote at out.old out.new p result }
{
    let next = run_end(text, at + 1, quote);
    ReadPiece {
        next,
        size: next - at,
        pos: put_part(text, at, next, out, p),
    }
}

// An escape, or a run of bytes that stand for themselves, at the byte b, which is no quote.
fn piece(text: &[u8], at: usize, b: u8, quote: u8, out: &mut [u8], p: usize) -> Option<ReadPiece>
    requires { AtPiece text.now quote at b }
    ensures { Pieced text.now quote at out.old out.new p result }
{
    match b {
        b'\\' => escape_piece(text, at, quote, out, p),
        0..0x20 => None,
        _ => Some(plain_piece(text, at, quote, out, p)),
    }
}

// Whether a string ends well, from `at` on, and how many bytes its content has. The content is written from `pos` on, if it all fits.
pub fn read_quoted(
    text: &[u8],
    at: usize,
    quote: u8,
    out: &mut [u8],
    pos: usize,
) -> Option<LiteralScan>
    ensures scans { Scans text.now at result (unquote quote character (drop at (marked text.now))) }
    ensures quotes { Quotes out.old out.new pos (unquote quote character (drop at (marked text.now))) }
{
    let mut i = at;
    let mut p = pos;
    let mut size: usize = 0;
    while i < text.len() {
        let b = text[i];
        if b == quote {
            return Some(LiteralScan { next: i + 1, size });
        }
        let m = piece(text, i, b, quote, out, p)?;
        p = m.pos;
        size += m.size;
        i = m.next;
    }
    None
}

// The same where nothing is to be written: no byte fits.
pub fn scan_quoted(text: &[u8], at: usize, quote: u8) -> Option<LiteralScan>
    ensures { Scans text.now at result (unquote quote character (drop at (marked text.now))) }
{
    read_quoted(text, at, quote, &mut [], 0)
}
