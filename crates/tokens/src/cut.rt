// Tokens.
ghost use Rattle.std.specs.Prelude.{◌+◌, ◌≤◌, length, drop};
ghost use Rattle.notation.specs.Cutting.{cut};
ghost use Rattle.notation.specs.Reading.{marked};
ghost use Rattle.token.specs.TokenAnswers.{Says, Took};

use crate::string::{quoted, word};
use numbers::number::number;
use scanning::class::{
    APOSTROPHE, CLOSE_BRACE, CLOSE_BRACKET, CLOSE_PAREN, COLON, COMMA, DIGIT, DOT, GREATER, LESS,
    LETTER, MINUS, OPEN_BRACE, OPEN_BRACKET, OPEN_PAREN, QUOTE,
};
use scanning::scan::TextCursor;
use signs::{closing, dots, opening, paired};
use token::form::{APOSTROPHED, QUOTED};
use token::indicator::NONE;
use token::kind::{BEHIND, END};
use token::reason::{NOT_ALLOWED, NOTHING};
use token::{Token, made, refuse};
use words::{after_minus, class_at};

// The token at a place.
fn cut(text: &[u8], at: usize) -> Token
    requires { at ≤ length text.now + 1 }
    ensures { Says text.now at result (cut (drop at (marked text.now))) }
{
    let k = class_at(text, at);
    match k {
        DIGIT => number(text, at, at, false),
        LETTER => word(text, at),
        MINUS => after_minus(text, at, at + 1),
        DOT => dots(text, at),
        QUOTE => quoted(text, at, QUOTED),
        APOSTROPHE => quoted(text, at, APOSTROPHED),
        COMMA => made(COMMA, NONE, 0, at, at + 1),
        COLON => made(COLON, NONE, 0, at, at + 1),
        OPEN_PAREN => paired(text, at, b'_', OPEN_PAREN),
        CLOSE_PAREN => made(CLOSE_PAREN, NONE, 0, at, at + 1),
        OPEN_BRACKET => opening(text, at, OPEN_BRACKET),
        CLOSE_BRACKET => made(CLOSE_BRACKET, NONE, 0, at, at + 1),
        OPEN_BRACE => opening(text, at, OPEN_BRACE),
        CLOSE_BRACE => made(CLOSE_BRACE, NONE, 0, at, at + 1),
        LESS => paired(text, at, b'<', LESS),
        GREATER => closing(text, at),
        END => made(END, NONE, 0, at, at + 1),
        BEHIND => refuse(NOT_ALLOWED, at),
        _ => refuse(NOTHING, at),
    }
}

// The first token from a place on, behind blanks and comments.
pub fn next_token(text: &[u8], at: usize) -> Token
    requires { at ≤ length (marked text.now) }
    ensures { Took text.now at result }
{
    let here = TextCursor { at }.skip(text);
    cut(text, here.at)
}
