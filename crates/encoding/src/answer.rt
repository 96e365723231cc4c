// What a reader answers: what was read, or why not.
ghost use Rattle.std.specs.Prelude.{◌≡◌, Ok, false};
ghost use Rattle.refusal.specs.RefusalKinds.{kind_number};
ghost use Rattle.encoding.specs.ReadAnswers.{stray_by, Strayed, Denies};

use refusal::{Refusal, RefusalKind, kind_of};
use scanning::class::{GREATER, LESS, OPEN_BRACE, OPEN_BRACKET};
use token::Token;
use token::indicator::{INDEFINITE, NONE, UNKNOWN};
use token::kind::{NO_TOKEN, TAG};
use token::reason::{BAD_INDICATOR, NOT_ALLOWED, TOO_DEEP};

// What was read: where the text goes on; how many bytes were made, and how many things they are; the indicator on the token that closed
// them; whether the last item is a byte string, and then how long its content is.
#[derive(Drop)]
pub struct MadeItem {
    pub next: usize,
    pub size: usize,
    pub count: usize,
    pub indicator: u8,
    pub binary: bool,
    pub length: usize,
}

pub fn refuse(kind: RefusalKind, place: usize) -> Result<MadeItem, Refusal>
    ensures { Denies (kind_number kind) place result }
{
    Err(Refusal { kind, place })
}

// One item.
pub fn done(next: usize, size: usize, binary: bool, length: usize) -> Result<MadeItem, Refusal>
    ensures { result ≡ Ok (record { next = next; size = size; count = 1; indicator = 0; binary = binary; length = length }) }
{
    Ok(MadeItem {
        next,
        size,
        count: 1,
        indicator: NONE,
        binary,
        length,
    })
}

// Several things.
pub fn listed(next: usize, size: usize, count: usize, indicator: u8) -> Result<MadeItem, Refusal>
    ensures { result ≡ Ok (record { next = next; size = size; count = count; indicator = indicator; binary = false; length = 0 }) }
{
    Ok(MadeItem {
        next,
        size,
        count,
        indicator,
        binary: false,
        length: 0,
    })
}

// The number of the refusal of a token that may not stand where it does, or of what is no token.
fn stray_number(levels: usize, kind: u8, refusal: u8, indicator: u8) -> u8
    ensures { result ≡ stray_by levels kind refusal indicator }
{
    if kind == NO_TOKEN {
        return refusal;
    }
    if kind == GREATER {
        return match indicator {
            INDEFINITE => BAD_INDICATOR,
            UNKNOWN => BAD_INDICATOR,
            _ => NOT_ALLOWED,
        };
    }
    if levels == 0 {
        return match kind {
            TAG => TOO_DEEP,
            OPEN_BRACKET => TOO_DEEP,
            OPEN_BRACE => TOO_DEEP,
            LESS => TOO_DEEP,
            _ => NOT_ALLOWED,
        };
    }
    NOT_ALLOWED
}

pub fn strayed(levels: usize, t: Token) -> Result<MadeItem, Refusal>
    ensures { Strayed levels t result }
{
    let kind = kind_of(stray_number(levels, t.kind, t.refusal, t.indicator));
    Err(Refusal {
        kind,
        place: t.place,
    })
}
