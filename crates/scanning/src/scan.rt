// Cursors: blanks and comments, words, and the byte that is next.
ghost use Rattle.std.specs.Prelude.{◌≡◌, ◌≤◌, length};
ghost use Rattle.notation.specs.Classes.{is_word};
ghost use Rattle.notation.specs.Reading.{marked};
ghost use Rattle.scanning.specs.ScanAnswers.{Blanks, Begins, CommentEnd, InComment, PastComment, Unblank, Skips, Ran, Peeked};

use crate::class::is_blank;
use crate::run::text_run;

fn blanks(text: &[u8], from: usize) -> usize
    requires { from ≤ length (marked text.now) }
    ensures { Blanks text.now from result }
{
    for at in from..text.len() {
        if !is_blank(text[at]) {
            return at;
        }
    }
    // Behind the end mark it stays there.
    from.max(text.len())
}

// Whether a byte may stand in a comment.
fn in_comment(b: u8) -> bool
    ensures { InComment b result }
{
    0x20 <= b || is_blank(b)
}

// The byte that ends the comment that begins at a place where no blank stands, if one does.
fn comment_end(text: &[u8], at: usize) -> Option<u8>
    requires { Unblank text.now at }
    ensures { CommentEnd text.now at result }
{
    if text.len() <= at {
        return None;
    }
    match text[at] {
        b'/' => Some(b'/'),
        b'#' => Some(b'\n'),
        _ => None,
    }
}

// Past a comment that begins at a place and ends with `end`, if it ends well.
fn comment(text: &[u8], from: usize, end: u8) -> Option<usize>
    requires { Begins text.now from end }
    ensures { PastComment text.now from result }
{
    let mut at = from + 1;
    while at < text.len() {
        let stop = text_run(text, at, end, end);
        if text.len() <= stop {
            return None;
        }
        let b = text[stop];
        if b == end {
            return Some(stop + 1);
        }
        if !in_comment(b) {
            return None;
        }
        at = stop + 1;
    }
    None
}

// Past the comment that begins at a place, and past blanks and comments behind it.
fn comments(text: &[u8], from: usize, first: u8) -> usize
    requires { Begins text.now from first }
    ensures { Skips text.now from result }
{
    let mut at = from;
    let mut end = Some(first);
    while let Some(last) = end {
        let Some(next) = comment(text, at, last) else {
            return at;
        };
        at = blanks(text, next);
        end = comment_end(text, at);
    }
    at
}

// Past blanks and comments. A comment that does not end well is not skipped. Two calls of `comments`, on a text of their own: so the
// compiler keeps it out of where `skip` is called, and what is left is a loop over blanks.
pub fn skip(text: &[u8], from: usize) -> usize
    requires { from ≤ length (marked text.now) }
    ensures { Skips text.now from result }
{
    let at = blanks(text, from);
    match comment_end(text, at) {
        None => at,
        Some(b'/') => comments(&text[0..], at, b'/'),
        Some(end) => comments(&text[0..], at, end),
    }
}

// Whether a letter or a digit.
fn is_word(b: u8) -> bool
    ensures { result ≡ is_word b }
{
    matches!(b, b'0'..=b'9' | b'A'..=b'Z' | b'a'..=b'z')
}

// Whether the byte c stands at a place.
pub fn next_is(text: &[u8], at: usize, c: u8) -> bool
    ensures { Peeked text.now at c result }
{
    at < text.len() && text[at] == c
}

#[derive(Drop)]
pub struct TextCursor {
    pub at: usize,
}

impl TextCursor {
    pub fn skip(self, text: &[u8]) -> TextCursor
        requires { self.at ≤ length (marked text.now) }
        ensures { Skips text.now self.at result.at }
    {
        TextCursor {
            at: skip(text, self.at),
        }
    }

    // Past letters and digits.
    pub fn word(self, text: &[u8]) -> TextCursor
        requires { self.at ≤ length text.now }
        ensures { Ran text.now is_word self.at result.at }
    {
        for at in self.at..text.len() {
            if !is_word(text[at]) {
                return TextCursor { at };
            }
        }
        TextCursor { at: text.len() }
    }
}
