// What opens a level: `[`, `{`, a tag, `<<`.
#![tactic(auto)]

ghost use Rattle.std.specs.Prelude.{◌≡◌, ◌≤◌, ◌+◌, length};
ghost use Rattle.notation.specs.Reading.{marked};
ghost use Rattle.scanning.specs.ScanAnswers.{Skips};
ghost use Rattle.opening.specs.Openings.{Opened, BracketAt, OpeningTold, OpensBare, ByToken, bracket_byte};

use encoding::heads::initial;
use leaf_answer::{Found, LeafRead};
use numbers::indicator::indicator_at;
use scanning::class::{LESS, OPEN_BRACE, OPEN_BRACKET};
use scanning::scan::next_is;
use token::Token;
use token::indicator::{NONE, UNKNOWN};
use token::kind::TAG;
use tokens::cut::next_token;

#[derive(Drop)]
pub enum Opener {
    Array,
    Map,
    Tag,
    Embedded,
    Nothing,
}

// What opens a level, or nothing: its indicator, or of a tag its initial byte and its number; its place, and where the text goes on.
#[derive(Drop)]
pub struct Opening {
    pub opener: Opener,
    pub indicator: u8,
    pub first: u8,
    pub number: u64,
    pub place: usize,
    pub next: usize,
}

fn opens(opener: Opener, indicator: u8, place: usize, next: usize) -> Opening
    ensures { result ≡ record { opener = opener; indicator = indicator; first = 0; number = 0; place = place; next = next } }
{
    Opening {
        opener,
        indicator,
        first: 0,
        number: 0,
        place,
        next,
    }
}

fn tagging(first: u8, number: u64, place: usize, next: usize) -> Opening
    ensures { result ≡ record { opener = Opener.Tag; indicator = 0; first = first; number = number; place = place; next = next } }
{
    Opening {
        opener: Opener::Tag,
        indicator: NONE,
        first,
        number,
        place,
        next,
    }
}

fn by_token(t: Token) -> Opening
    ensures { ByToken t result }
{
    let kind = t.kind;
    match kind {
        TAG => tagging(initial(t), t.argument, t.place, t.next),
        OPEN_BRACKET => opens(Opener::Array, t.indicator, t.place, t.next),
        OPEN_BRACE => opens(Opener::Map, t.indicator, t.place, t.next),
        LESS => opens(Opener::Embedded, NONE, t.place, t.next),
        _ => opens(Opener::Nothing, NONE, t.place, t.next),
    }
}

fn cut_opening(text: &[u8], from: usize) -> Opening
    requires { from ≤ length (marked text.now) }
    ensures { OpeningTold text.now from result }
{
    by_token(next_token(text, from))
}

// `[` or `{` with its indicator; an unknown one is refused.
fn bracket(text: &[u8], from: usize, at: usize, opener: Opener) -> Opening
    requires { BracketAt text.now from at opener }
    ensures { OpeningTold text.now from result }
{
    let m = indicator_at(text, at + 1);
    if m.mark == UNKNOWN {
        return cut_opening(text, from);
    }
    opens(opener, m.mark, at, m.next)
}

// By the byte that stands there.
fn by_byte(text: &[u8], from: usize, at: usize) -> Opening
    requires skips { Skips text.now from at }
    requires from_in_bounds { from ≤ length (marked text.now) }
    ensures { OpeningTold text.now from result }
{
    if next_is(text, at, b'[') {
        return bracket(text, from, at, Opener::Array);
    }
    if next_is(text, at, b'{') {
        return bracket(text, from, at, Opener::Map);
    }
    if next_is(text, at, b'<') {
        if next_is(text, at + 1, b'<') {
            return opens(Opener::Embedded, NONE, at, at + 2);
        }
        return cut_opening(text, from);
    }
    cut_opening(text, from)
}

fn bracket_byte(opener: Opener) -> u8
    ensures { result ≡ bracket_byte opener }
{
    match opener {
        Opener::Array => b'[',
        Opener::Map => b'{',
        Opener::Tag => 0,
        Opener::Embedded => 0,
        Opener::Nothing => 0,
    }
}

// Whether `[` or `{` stands at a place with no indicator behind it.
pub fn opens_bare(text: &[u8], from: usize, at: usize, opener: Opener) -> bool
    requires skips { Skips text.now from at }
    requires from_in_bounds { from ≤ length (marked text.now) }
    ensures { OpensBare text.now from at opener result }
{
    if next_is(text, at, bracket_byte(opener)) {
        return !next_is(text, at + 1, b'_');
    }
    false
}

// The initial byte of a tag, but for the additional information.
const TAG_HEAD: u8 = 0xc0;

// What opens a level at a place where no leaf was read, or nothing.
pub fn opening_at(text: &[u8], from: usize, at: usize, q: LeafRead) -> Opening
    requires opened { Opened text.now from at q }
    requires from_in_bounds { from ≤ length (marked text.now) }
    ensures { OpeningTold text.now from result }
{
    let found = q.found;
    match found {
        Found::Tag => tagging(
            TAG_HEAD + head::shortest_info(q.number),
            q.number,
            at,
            q.next,
        ),
        Found::Leaf => by_byte(text, from, at),
        Found::Odd => by_byte(text, from, at),
        Found::Nothing => by_byte(text, from, at),
    }
}
