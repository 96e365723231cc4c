// What a walk passes over outside its cycle, at the front of a slice: the content of a string, a chunk, a head that is refused.
#![tactic(auto)]

ghost use Rattle.std.specs.Prelude.{◌≡◌, None, ◌/◌, length, drop, get_or};
ghost use Rattle.cbor.specs.Heads.{major_number, major_of, strings};
ghost use Rattle.cbor.specs.Decode.{content_at, chunk_at};
ghost use Rattle.cbor.specs.Valid.{is_text};
ghost use Rattle.cbor.specs.Flags.{kind_of};
ghost use Rattle.head.specs.HeadAnswers.{HeadEnd};
ghost use Rattle.walk_answer.specs.WalkAnswers.{pass_told, map_result, told_of, chunk_contents, Headless, Within};

use head::initial::{BYTE_STRING, INDEFINITE_LENGTH, TEXT_STRING};
use refusal::{Refusal, RefusalKind};
use walk_answer::{Passage, reached, refuse};

// STRINGS

// Whether bytes may be the content of a string: of a text string, if they are UTF-8.
pub fn is_text(bytes: &[u8], text: bool) -> bool
    ensures { result ≡ is_text (kind_of text) bytes.now }
{
    if text {
        return utf8::first_bad(bytes) == bytes.len();
    }
    true
}

// The content of a string: `n` bytes behind its head, which is at the front.
pub fn content(bytes: &[u8], from: usize, n: u64, text: bool) -> Result<Passage, Refusal>
    requires { Within bytes.now from }
    ensures { pass_told result ≡ told_of (length bytes.now) (map_result length (content_at (kind_of text) n (length bytes.now) (drop from bytes.now))) }
{
    if ((bytes.len() - from) as u64) < n {
        return refuse(RefusalKind::EndsInside, 0);
    }
    let end = from + n as usize;
    if is_text(&bytes[from..end], text) {
        return reached(end, end - from);
    }
    refuse(RefusalKind::NotUtf8, 0)
}

fn string_major(text: bool) -> u8
    ensures { result ≡ major_number (strings (kind_of text)) }
{
    if text { TEXT_STRING } else { BYTE_STRING }
}

// A chunk of a string.
pub fn chunk(bytes: &[u8], text: bool) -> Result<Passage, Refusal>
    ensures { pass_told result ≡ told_of (length bytes.now) (map_result chunk_contents (chunk_at (kind_of text) bytes.now)) }
{
    if bytes.len() == 0 {
        return refuse(RefusalKind::EndsInside, 0);
    }
    if bytes[0] / 32 != string_major(text) {
        return refuse(RefusalKind::NotWellFormed, 0);
    }
    let h = head::read_head(bytes, 0)?;
    if h.info == INDEFINITE_LENGTH {
        return refuse(RefusalKind::NotWellFormed, 0);
    }
    content(bytes, h.end, h.argument, text)
}

// HEADS

fn major_of(initial: u8) -> u8
    ensures { result ≡ major_number (major_of (initial / 32)) }
{
    initial / 32
}

// The major type of the item at a place.
pub fn major_at(bytes: &[u8], at: usize) -> u8
    ensures { result ≡ major_number (major_of (get_or bytes.now at 0 / 32)) }
{
    if bytes.len() <= at {
        return 0;
    }
    major_of(bytes[at])
}

// The refusal of a head that is refused.
pub fn headless(bytes: &[u8]) -> Result<Passage, Refusal>
    requires { HeadEnd bytes.now 0 None }
    ensures { Headless bytes.now result }
{
    let h = head::read_head(bytes, 0)?;
    reached(h.end, 0)
}
