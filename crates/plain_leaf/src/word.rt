// The words that are simple values: true, false, null, undefined.
ghost use Rattle.std.specs.Prelude.{◌+◌, ◌≤◌, ◌<◌, length};
ghost use Rattle.head.specs.HeadAnswers.{Widened};
ghost use Rattle.leaf_answer.specs.LeafAnswers.{LeafTold};
ghost use Rattle.plain_leaf.specs.LeafParts.{Four, KnownWord, EndsWord, WordEnds};

use leaf_answer::{LeafRead, leaf, odd};
use scanning::scan::next_is;

// Four letters as a number, the first one high.
const TRUE: u32 = 0x7472_7565;

const NULL: u32 = 0x6e75_6c6c;

const FALS: u32 = 0x6661_6c73;

const UNDE: u32 = 0x756e_6465;

const FINE: u32 = 0x6669_6e65;

// The values of these words, and the initial byte before them.
const FALSE_VALUE: u8 = 20;

const TRUE_VALUE: u8 = 21;

const NULL_VALUE: u8 = 22;

const UNDEFINED_VALUE: u8 = 23;

const SIMPLE: u8 = 0xe0;

fn wide(b: u8) -> u32
    ensures { Widened b result }
{
    b as u32
}

pub fn four(text: &[u8], at: usize) -> u32
    requires { at + 4 ≤ length text.now }
    ensures { Four text.now at result }
{
    wide(text[at]) * 0x100_0000
        + wide(text[at + 1]) * 0x1_0000
        + wide(text[at + 2]) * 0x100
        + wide(text[at + 3])
}

// A word's end, and the simple value that it is.
#[derive(Drop)]
struct SimpleWord {
    end: usize,
    value: u8,
}

// The word undefined.
fn undefined(text: &[u8], at: usize) -> Option<SimpleWord>
    requires { at < length text.now }
    ensures { KnownWord text.now at result }
{
    if 9 <= text.len() - at
        && four(text, at) == UNDE
        && four(text, at + 4) == FINE
        && next_is(text, at + 8, b'd')
    {
        Some(SimpleWord {
            end: at + 9,
            value: UNDEFINED_VALUE,
        })
    } else {
        None
    }
}

// The word that begins at a place, if nothing goes on behind it.
fn simple_word(text: &[u8], at: usize) -> Option<SimpleWord>
    requires { at < length text.now }
    ensures { KnownWord text.now at result }
{
    if text.len() - at < 4 {
        return None;
    }
    match four(text, at) {
        TRUE => Some(SimpleWord {
            end: at + 4,
            value: TRUE_VALUE,
        }),
        NULL => Some(SimpleWord {
            end: at + 4,
            value: NULL_VALUE,
        }),
        FALS if next_is(text, at + 4, b'e') => Some(SimpleWord {
            end: at + 5,
            value: FALSE_VALUE,
        }),
        _ => undefined(text, at),
    }
}

// Whether a byte ends a word, of those that mostly do.
fn ends_word(b: u8) -> bool
    ensures { EndsWord b result }
{
    b != b'\'' && matches!(b, 0..b'0' | b':' | b'>' | b']' | b'}')
}

fn ends(text: &[u8], at: usize) -> bool
    requires { at ≤ length text.now }
    ensures { WordEnds text.now at result }
{
    text.len() <= at || ends_word(text[at])
}

pub fn word(text: &[u8], at: usize, buf: &mut [u8], pos: usize) -> LeafRead
    requires { at < length text.now }
    ensures { LeafTold text.now buf.old buf.new at pos result }
{
    match simple_word(text, at) {
        Some(w) if ends(text, w.end) => {
            buffer::put(buf, pos, SIMPLE + w.value);
            leaf(w.end, 1, false, 0)
        }
        _ => odd(at),
    }
}
