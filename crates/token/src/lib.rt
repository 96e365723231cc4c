// A token, as the code hands it on.
#![tactic(auto)]

pub mod form;
pub mod indicator;
pub mod kind;
pub mod reason;

ghost use Rattle.token.specs.TokenAnswers.{Refused, TokenMade};

use crate::form::QUOTED;
use crate::indicator::NONE;
use crate::kind::NO_TOKEN;
use crate::reason::NO_REFUSAL;

// A token: its kind (kind.rt); where there is none, why not (reason.rt). The indicator of a container, or the width that it gives an argument
// (indicator.rt). The argument of its head: of a literal, how many bytes it stands for. The form of a literal (form.rt); what it holds starts
// at `start`, and stops at `stop` in h'..' and b64'..'. The token's place, and what is next behind it.
#[derive(Clone, Copy)]
pub struct Token {
    pub kind: u8,
    pub refusal: u8,
    pub indicator: u8,
    pub argument: u64,
    pub form: u8,
    pub start: usize,
    pub stop: usize,
    pub place: usize,
    pub next: usize,
}

pub fn refuse(reason: u8, place: usize) -> Token
    ensures { Refused reason place result }
{
    Token {
        kind: NO_TOKEN,
        refusal: reason,
        indicator: NONE,
        argument: 0,
        form: QUOTED,
        start: 0,
        stop: 0,
        place,
        next: 0,
    }
}

// A token that is no literal.
pub fn made(kind: u8, indicator: u8, argument: u64, place: usize, next: usize) -> Token
    ensures { TokenMade kind indicator argument place next result }
{
    Token {
        kind,
        refusal: NO_REFUSAL,
        indicator,
        argument,
        form: QUOTED,
        start: 0,
        stop: 0,
        place,
        next,
    }
}
