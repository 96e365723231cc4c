// What closes a list of items, and what stands behind one of them.
#![tactic(auto)]

ghost use Rattle.std.specs.Prelude.{◌≡◌, false, ◌+◌, ◌≤◌, length};
ghost use Rattle.notation.specs.Reading.{marked};
ghost use Rattle.closers.specs.CloserTables.{is_single};
ghost use Rattle.closing.specs.Closings.{SignAt, GoesOn, ClosesAt, SeparatesAt, StartsAt, Ends, Follows, Differs, OpenAt, IsFirm, StartsAtOnce, ClosesAtOnce};

use closers::{Closer, closing_byte, has_sign, is_single, may_be_empty, may_separate, separator};
use numbers::indicator::indicator_at;
use scanning::scan::{TextCursor, next_is};
use token::indicator::NONE;

// Whether the token that closes stands at a place; its indicator, and where the text goes on behind it.
#[derive(Drop)]
pub struct Closing {
    pub found: bool,
    pub next: usize,
    pub indicator: u8,
}

// What stands behind an item: what parts it from the next one, what ends the list, or what may not stand there.
#[derive(Drop)]
pub enum Follow {
    On,
    Over,
    Stray,
}

// It, and where the text goes on behind it; the indicator of what ends the list.
#[derive(Drop)]
pub struct Follower {
    pub follow: Follow,
    pub next: usize,
    pub indicator: u8,
}

// A closing token of one byte.
fn sign(text: &[u8], at: usize, c: u8) -> Closing
    requires { at ≤ length text.now + 1 }
    ensures { SignAt text.now at c result }
{
    Closing {
        found: next_is(text, at, c),
        next: at + 1,
        indicator: NONE,
    }
}

fn none(at: usize) -> Closing
    ensures { result ≡ record { found = false; next = at; indicator = 0 } }
{
    Closing {
        found: false,
        next: at,
        indicator: NONE,
    }
}

// `>>` with its indicator.
fn angles(text: &[u8], at: usize) -> Closing
    requires { at ≤ length text.now + 1 }
    ensures { ClosesAt text.now at Closer.Angle result }
{
    if next_is(text, at, b'>') {
        if next_is(text, at + 1, b'>') {
            let m = indicator_at(text, at + 2);
            return Closing {
                found: true,
                next: m.next,
                indicator: m.mark,
            };
        }
        return none(at);
    }
    none(at)
}

// No byte is the end of the text.
fn goes_on(b: u8, at: usize) -> Closing
    ensures { GoesOn b at result }
{
    none(at)
}

// The end of the text.
fn end(text: &[u8], at: usize) -> Closing
    requires { at ≤ length text.now + 1 }
    ensures { ClosesAt text.now at Closer.Whole result }
{
    if at < text.len() {
        return goes_on(text[at], at);
    }
    Closing {
        found: at == text.len(),
        next: at + 1,
        indicator: NONE,
    }
}

fn by_closer(text: &[u8], at: usize, closer: Closer) -> Closing
    requires { at ≤ length text.now + 1 }
    ensures { ClosesAt text.now at closer result }
{
    match closer {
        Closer::Square => sign(text, at, b']'),
        Closer::Curly => sign(text, at, b'}'),
        Closer::Round => sign(text, at, b')'),
        Closer::Angle => angles(text, at),
        Closer::Whole => end(text, at),
        Closer::Nothing => end(text, at),
    }
}

fn differs(b: u8, c: u8) -> bool
    ensures { Differs b c result }
{
    b != c
}

// Whether a byte stands at a place that does not begin what closes: most bytes do not, and which closer it is need not be asked then.
fn is_open(text: &[u8], at: usize, closer: Closer) -> bool
    ensures { OpenAt text.now at closer result }
{
    if text.len() <= at {
        return false;
    }
    differs(text[at], closing_byte(closer))
}

fn closes(text: &[u8], at: usize, closer: Closer) -> Closing
    requires { at ≤ length text.now + 1 }
    ensures { ClosesAt text.now at closer result }
{
    if is_open(text, at, closer) {
        return none(at);
    }
    by_closer(text, at, closer)
}

// The byte comes first: which closer it is can be foretold less well.
fn separates(text: &[u8], at: usize, closer: Closer, key: bool) -> bool
    requires { at ≤ length text.now + 1 }
    ensures { SeparatesAt text.now at closer key result }
{
    if next_is(text, at, separator(key)) {
        return may_separate(closer);
    }
    false
}

// Whether a byte is neither a blank nor the begin of a comment nor the one that closes.
fn is_firm(b: u8, close: u8) -> bool
    ensures { IsFirm b close result }
{
    if b <= b' ' {
        return false;
    }
    match b {
        b'#' => false,
        b'/' => false,
        _ => b != close,
    }
}

// Whether a list is seen not to end at a place, by the byte that stands there.
fn starts_at_once(text: &[u8], at: usize, closer: Closer) -> bool
    ensures { StartsAtOnce text.now at closer result }
{
    if text.len() <= at {
        return false;
    }
    is_firm(text[at], closing_byte(closer))
}

// Whether a list ends where it begins.
pub fn first(text: &[u8], from: usize, closer: Closer) -> Closing
    requires { from ≤ length (marked text.now) }
    ensures { StartsAt text.now from closer result }
{
    if starts_at_once(text, from, closer) {
        return none(from);
    }
    if may_be_empty(closer) {
        let here = TextCursor { at: from }.skip(text);
        return closes(text, here.at, closer);
    }
    none(from)
}

fn on(next: usize) -> Follower
    ensures { result ≡ record { follow = Follow.On; next = next; indicator = 0 } }
{
    Follower {
        follow: Follow::On,
        next,
        indicator: NONE,
    }
}

fn over(next: usize) -> Follower
    ensures { result ≡ record { follow = Follow.Over; next = next; indicator = 0 } }
{
    Follower {
        follow: Follow::Over,
        next,
        indicator: NONE,
    }
}

// Whether a list ends at a place, with no blank and no comment before that.
fn closes_at_once(text: &[u8], at: usize, closer: Closer, key: bool) -> bool
    requires { at ≤ length text.now + 1 }
    ensures { ClosesAtOnce text.now at closer key result }
{
    if key {
        return false;
    }
    if has_sign(closer) {
        return next_is(text, at, closing_byte(closer));
    }
    false
}

// What stands behind an item.
pub fn followed(text: &[u8], from: usize, closer: Closer, key: bool) -> Follower
    requires { from ≤ length (marked text.now) }
    ensures { Follows text.now from closer key result }
{
    if is_single(closer) {
        return over(from);
    }
    if separates(text, from, closer, key) {
        return on(from + 1);
    }
    if closes_at_once(text, from, closer, key) {
        return over(from + 1);
    }
    behind_blanks(text, from, closer, key)
}

// The same behind blanks and comments.
fn behind_blanks(text: &[u8], from: usize, closer: Closer, key: bool) -> Follower
    requires from_in_bounds { from ≤ length (marked text.now) }
    requires closer_value { is_single closer ≡ false }
    ensures { Follows text.now from closer key result }
{
    let here = TextCursor { at: from }.skip(text);
    let at = here.at;
    if separates(text, at, closer, key) {
        return on(at + 1);
    }
    if key {
        return Follower {
            follow: Follow::Stray,
            next: at,
            indicator: NONE,
        };
    }
    ended(closes(text, at, closer))
}

// The end of a list, or what may not stand there.
fn ended(c: Closing) -> Follower
    ensures { Ends c result }
{
    let found = c.found;
    if found {
        return Follower {
            follow: Follow::Over,
            next: c.next,
            indicator: c.indicator,
        };
    }
    Follower {
        follow: Follow::Stray,
        next: c.next,
        indicator: NONE,
    }
}
