// Integers and tag openings.
ghost use Rattle.std.specs.Prelude.{◌≡◌, true, ◌+◌, ◌≤◌, length, drop, get_or};
ghost use Rattle.notation.specs.Numbers.{after_zero, number, radix_of};
ghost use Rattle.notation.specs.Reading.{marked};
ghost use Rattle.token.specs.TokenAnswers.{Says};
ghost use Rattle.numbers.specs.NumberAnswers.{Judging, Integral, Decimals, DigitAt, radix_number, Prefixed, BasedAt, Leading};
ghost use Rattle.cbor.specs.Flags.{sign_of};

use crate::indicator::{Mark, choose, indicator_at};
use amounts::{Amount, Digits, count_digits, digit_value, floats};
use scanning::scan::next_is;
use token::indicator::MISFIT;
use token::kind::{NEGATIVE, TAG, UNSIGNED};
use token::reason::{BAD_INDICATOR, FLOAT, NOTHING, OUT_OF_RANGE};
use token::{Token, made, refuse};

// An argument and its indicator: 7, then 9, else the token of a kind.
fn judged(kind: u8, mark: u8, n: u64, over: bool, place: usize, next: usize) -> Token
    ensures { Judging kind mark n over place next result }
{
    if over {
        return refuse(OUT_OF_RANGE, place);
    }
    let width = choose(mark, n);
    if width == MISFIT {
        return refuse(BAD_INDICATOR, place);
    }
    made(kind, width, n, place, next)
}

// The argument of -n is n - 1, which is in 64 bits for n = 2^64 too.
fn negated(a: Amount, m: Mark, place: usize) -> Token
    ensures { Integral true a m place result }
{
    let value = a.value;
    let over = a.over;
    if over {
        if value == 0 {
            return judged(
                NEGATIVE,
                m.mark,
                0xffff_ffff_ffff_ffff,
                false,
                place,
                m.next,
            );
        }
        return judged(NEGATIVE, m.mark, 0, true, place, m.next);
    }
    if value == 0 {
        return refuse(NOTHING, place);
    }
    judged(NEGATIVE, m.mark, value - 1, false, place, m.next)
}

fn integer(minus: bool, a: Amount, m: Mark, place: usize) -> Token
    ensures { Integral minus a m place result }
{
    if minus {
        return negated(a, m, place);
    }
    judged(UNSIGNED, m.mark, a.value, a.over, place, m.next)
}

// Behind decimal digits: an integer, or the opening of a tag.
fn decimal(text: &[u8], place: usize, at: usize, minus: bool, a: Amount) -> Token
    requires { at ≤ length text.now }
    ensures { Decimals text.now place at minus a result }
{
    let m = indicator_at(text, at);
    if minus {
        return integer(true, a, m, place);
    }
    let next = m.next;
    if next_is(text, next, b'(') {
        return judged(TAG, m.mark, a.value, a.over, place, next + 1);
    }
    integer(false, a, m, place)
}

// No radix, in place of one: no digit is below it.
const NO_RADIX: u64 = 0;

fn radix_of(b: u8) -> u64
    ensures { result ≡ radix_number (radix_of b) }
{
    match b {
        b'x' => 16,
        b'o' => 8,
        b'b' => 2,
        _ => NO_RADIX,
    }
}

// The radix that a letter behind a zero gives, if a digit of it follows.
fn prefix(text: &[u8], at: usize) -> u64
    ensures { Prefixed text.now at result }
{
    if text.len() <= at {
        return NO_RADIX;
    }
    if text.len() - at < 2 {
        return NO_RADIX;
    }
    let radix = radix_of(text[at]);
    if digit_value(text[at + 1]) < radix {
        return radix;
    }
    NO_RADIX
}

// The same behind a first digit, which must be a zero.
fn base_of(text: &[u8], b: u8, at: usize) -> u64
    ensures { BasedAt text.now at b result }
{
    if b == b'0' {
        return prefix(text, at);
    }
    NO_RADIX
}

// An integer in another base, whose letter stands at a place.
fn based(text: &[u8], place: usize, at: usize, radix: u64, minus: bool) -> Token
    requires at_in_bounds { at ≤ length text.now }
    requires prefixed { Prefixed text.now at radix }
    requires fact { radix ≡ 0 → ⊥ }
    ensures { Says text.now place result (after_zero (sign_of minus) (drop at (marked text.now))) }
{
    let d = count_digits(text, at + 2, radix, digit_value(text[at + 1]));
    let next = d.next;
    if floats(text, next, radix) {
        return refuse(FLOAT, place);
    }
    let a = d.amount;
    let m = indicator_at(text, next);
    integer(minus, a, m, place)
}

// The decimal digits that are part of a number: behind a zero there are none.
fn leading(b: u8, at: usize, d: Digits) -> Digits
    ensures { Leading b at d result }
{
    if b == b'0' {
        return Digits {
            amount: Amount {
                value: 0,
                over: false,
            },
            next: at,
        };
    }
    d
}

// The same token, made anew: one that is handed on whole is copied, and the copy waits for it.
fn again(t: Token) -> Token
    ensures { result ≡ t }
{
    Token {
        kind: t.kind,
        refusal: t.refusal,
        indicator: t.indicator,
        argument: t.argument,
        form: t.form,
        start: t.start,
        stop: t.stop,
        place: t.place,
        next: t.next,
    }
}

// The integer, or the opening of a tag, whose first digit stands at a place.
pub fn number(text: &[u8], place: usize, at: usize, minus: bool) -> Token
    requires { DigitAt text.now at }
    ensures { Says text.now place result (number (sign_of minus) (get_or text.now at 0) (drop (at + 1) (marked text.now))) }
{
    let b = text[at];
    let d = count_digits(text, at + 1, 10, digit_value(b));
    let end = d.next;
    if floats(text, end, 10) {
        return refuse(FLOAT, place);
    }
    let radix = base_of(text, b, at + 1);
    if radix == NO_RADIX {
        let l = leading(b, at + 1, d);
        let next = l.next;
        let a = l.amount;
        return again(decimal(text, place, next, minus, a));
    }
    again(based(text, place, at + 1, radix, minus))
}
