// Tokens of brackets and dots: `[` and `{` with their indicators, `(_`, `<<`, `>>`, and `...`, which is refused.
#![tactic(auto)]

ghost use Rattle.std.specs.Prelude.{◌+◌, ◌<◌, length, drop};
ghost use Rattle.notation.specs.Classes.{greater, dot};
ghost use Rattle.notation.specs.Cutting.{cut_by};
ghost use Rattle.notation.specs.Reading.{marked};
ghost use Rattle.token.specs.TokenAnswers.{Says};
ghost use Rattle.signs.specs.SignAnswers.{Opens, Paired};

use numbers::indicator::indicator_at;
use scanning::class::GREATER;
use scanning::scan::next_is;
use token::indicator::{NONE, UNKNOWN};
use token::reason::{BAD_INDICATOR, DOTS, NOTHING};
use token::{Token, made, refuse};

// `[` or `{`.
pub fn opening(text: &[u8], place: usize, kind: u8) -> Token
    requires { place < length text.now }
    ensures { Opens text.now place kind result }
{
    let m = indicator_at(text, place + 1);
    let mark = m.mark;
    if mark == UNKNOWN {
        return refuse(BAD_INDICATOR, place);
    }
    made(kind, mark, 0, place, m.next)
}

// `(_` or `<<`.
pub fn paired(text: &[u8], place: usize, c: u8, kind: u8) -> Token
    requires { place < length text.now }
    ensures { Paired text.now place c kind result }
{
    if next_is(text, place + 1, c) {
        return made(kind, NONE, 0, place, place + 2);
    }
    refuse(NOTHING, place)
}

// `>>`.
pub fn closing(text: &[u8], place: usize) -> Token
    requires { place < length text.now }
    ensures { Says text.now place result (cut_by greater 0 (drop (place + 1) (marked text.now))) }
{
    if next_is(text, place + 1, b'>') {
        let m = indicator_at(text, place + 2);
        return made(GREATER, m.mark, 0, place, m.next);
    }
    refuse(NOTHING, place)
}

// `...`.
pub fn dots(text: &[u8], place: usize) -> Token
    requires { place < length text.now }
    ensures { Says text.now place result (cut_by dot 0 (drop (place + 1) (marked text.now))) }
{
    if next_is(text, place + 1, b'.') {
        if next_is(text, place + 2, b'.') {
            return refuse(DOTS, place);
        }
        return refuse(NOTHING, place);
    }
    refuse(NOTHING, place)
}
