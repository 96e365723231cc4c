// Words and simple values.
#![tactic(auto)]

ghost use Rattle.std.specs.Prelude.{◌≡◌, ◌+◌, ◌≤◌, length, drop};
ghost use Rattle.notation.specs.Words.{same, is_plain_decimal, simple_token, worded};
ghost use Rattle.notation.specs.Cutting.{starts_with, after_minus};
ghost use Rattle.notation.specs.Reading.{marked};
ghost use Rattle.scanning.specs.Stands.{span};
ghost use Rattle.token.specs.TokenAnswers.{Says};
ghost use Rattle.words.specs.WordAnswers.{WordPart, Enclosed, other_word, value_word, prefix_word, Simples, SimpleIn, Stood};

use amounts::{Amount, count_digits};
use numbers::number::number;
use scanning::class::{DIGIT, class};
use scanning::scan::next_is;
use token::form::{BASE64, HEX};
use token::indicator::NONE;
use token::kind::{BEHIND, END, SIMPLE};
use token::reason::{BAD_CONTENT, FLOAT, NOTHING, UNKNOWN_WORD};
use token::{Token, made, refuse};

// What a word stands for: a simple value, or `simple`, behind which one stands in brackets.
#[derive(Clone, Copy)]
enum WordMeaning {
    Value(u8),
    SimpleOf,
}

// The simple values that have words (RFC 8949, section 3.3).
const FALSE: u8 = 20;

const TRUE: u8 = 21;

const NULL: u8 = 22;

const UNDEFINED: u8 = 23;

// Whether a word begins at a place.
fn starts_with(text: &[u8], at: usize, word: &[u8]) -> bool
    requires { at ≤ length text.now }
    ensures { result ≡ starts_with word.now (drop at (marked text.now)) }
{
    text[at..].starts_with(word)
}

// Whether a part of a text is a word.
fn is_same(text: &[u8], from: usize, end: usize, word: &[u8]) -> bool
    requires { WordPart text.now from end }
    ensures { result ≡ same (span from end (marked text.now)) word.now }
{
    &text[from..end] == word
}

// Why a word is refused.
fn other_word(text: &[u8], from: usize, end: usize) -> u8
    requires { WordPart text.now from end }
    ensures { result ≡ other_word (span from end (marked text.now)) }
{
    if is_same(text, from, end, b"NaN") || is_same(text, from, end, b"Infinity") {
        FLOAT
    } else {
        UNKNOWN_WORD
    }
}

// What a word stands for, or why it is refused.
fn value_word(text: &[u8], from: usize, end: usize) -> Result<WordMeaning, u8>
    requires { WordPart text.now from end }
    ensures { result ≡ value_word (span from end (marked text.now)) }
{
    if is_same(text, from, end, b"false") {
        return Ok(WordMeaning::Value(FALSE));
    }
    if is_same(text, from, end, b"true") {
        return Ok(WordMeaning::Value(TRUE));
    }
    if is_same(text, from, end, b"null") {
        return Ok(WordMeaning::Value(NULL));
    }
    if is_same(text, from, end, b"undefined") {
        return Ok(WordMeaning::Value(UNDEFINED));
    }
    if is_same(text, from, end, b"simple") {
        return Ok(WordMeaning::SimpleOf);
    }
    Err(other_word(text, from, end))
}

// The form of literal that a prefix gives, or why it is refused.
pub fn prefix_word(text: &[u8], from: usize, end: usize) -> Result<u8, u8>
    requires { WordPart text.now from end }
    ensures { result ≡ prefix_word (span from end (marked text.now)) }
{
    if is_same(text, from, end, b"h") {
        return Ok(HEX);
    }
    if is_same(text, from, end, b"b64") {
        return Ok(BASE64);
    }
    Err(other_word(text, from, end))
}

// Whether digits are a decimal without leading zero.
fn plain_decimal(text: &[u8], from: usize, end: usize) -> bool
    requires { WordPart text.now from end }
    ensures { result ≡ is_plain_decimal (span from end (marked text.now)) }
{
    match end - from {
        0 => false,
        1 => true,
        _ => b'1' <= text[from],
    }
}

// The simple values are two stretches of numbers (RFC 8949, section 3.3).
const LAST_LOW: u64 = 23;

const FIRST_HIGH: u64 = 32;

const LAST_HIGH: u64 = 255;

fn is_simple(a: Amount) -> bool
    ensures { Simples a result }
{
    !a.over && matches!(a.value, 0..=LAST_LOW | FIRST_HIGH..=LAST_HIGH)
}

// The digits in `simple(..)`.
fn simple_in(text: &[u8], place: usize, from: usize, end: usize, a: Amount) -> Token
    requires { Enclosed text.now from end }
    ensures { SimpleIn text.now place from end a result }
{
    if plain_decimal(text, from, end) {
        if is_simple(a) {
            return made(SIMPLE, NONE, a.value, place, end + 1);
        }
        return refuse(BAD_CONTENT, place);
    }
    refuse(UNKNOWN_WORD, place)
}

// Behind the word `simple`.
pub fn simple_token(text: &[u8], place: usize, at: usize) -> Token
    requires { at ≤ length text.now }
    ensures { Says text.now place result (simple_token (drop at (marked text.now))) }
{
    if next_is(text, at, b'(') {
        let from = at + 1;
        let d = count_digits(text, from, 10, 0);
        let end = d.next;
        if next_is(text, end, b')') {
            let a = d.amount;
            return simple_in(text, place, from, end, a);
        }
        return refuse(UNKNOWN_WORD, place);
    }
    refuse(UNKNOWN_WORD, place)
}

// A word with no `'` behind it.
pub fn worded(text: &[u8], place: usize, end: usize) -> Token
    requires { WordPart text.now place end }
    ensures { Says text.now place result (worded (span place end (marked text.now)) (drop end (marked text.now))) }
{
    match value_word(text, place, end) {
        Ok(WordMeaning::Value(v)) => made(SIMPLE, NONE, v as u64, place, end),
        Ok(WordMeaning::SimpleOf) => simple_token(text, place, end),
        Err(reason) => refuse(reason, place),
    }
}

// The class of the byte at a place, or that the text ends there, or has ended before.
pub fn class_at(text: &[u8], at: usize) -> u8
    ensures { Stood text.now at result }
{
    if at < text.len() {
        return class(text[at]);
    }
    if at == text.len() {
        return END;
    }
    BEHIND
}

// Behind `-`: an integer, or `Infinity`.
pub fn after_minus(text: &[u8], place: usize, at: usize) -> Token
    requires { at ≤ length text.now }
    ensures { Says text.now place result (after_minus (drop at (marked text.now))) }
{
    let k = class_at(text, at);
    if k == DIGIT {
        return number(text, place, at, true);
    }
    if starts_with(text, at, b"Infinity") {
        return refuse(FLOAT, place);
    }
    refuse(NOTHING, place)
}
