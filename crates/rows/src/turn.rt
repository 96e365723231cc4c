// What kinds of lines there are, and the turns that a row takes.
use crate::cut::{field, part, pieces};
use std::ops::ControlFlow;

// What a line comes to: a comment, the first line of a group, a row that is right, one that is wrong.
#[derive(Clone, Copy, PartialEq, Eq)]
pub enum Outcome {
    Comment,
    Group,
    Right,
    Wrong,
}

// The turns of a row. The first is its kind.
#[derive(Clone, Copy, PartialEq, Eq)]
pub enum Turn {
    Read,
    Print,
    Check,
    Look,
    Scan,
    // A correction is asked for first with a used length that is one over the buffer.
    Correct,
    // Bytes that are printed, to be read back.
    Back,
    // A text that is read, to be edited.
    Edit,
    // The same is asked for once more, with a buffer that is a byte too short.
    ShortRead,
    ShortPrint,
    // The text that was printed is read.
    ReadBack,
    // The correction, with its own used length.
    CorrectUsed,
    // The bytes of a text are corrected; and the edited text is read, where that was done and where it was refused.
    EditBytes,
    ReadEdited,
    ReadRefused,
}

// The turn that a row is at, and how many bytes the turn before it kept.
#[derive(Clone, Copy)]
pub struct Step {
    pub turn: Turn,
    pub size: usize,
}

// A step that is next; or what a line came to, which asks for nothing more.
pub type State = ControlFlow<Outcome, Step>;

// Whether a field is a refusal, `!C@P`.
pub fn is_refusal(field: &[u8]) -> bool {
    field.first() == Some(&b'!')
}

// The last field of a row: what is expected.
pub fn expected(line: &[u8]) -> &[u8] {
    field(line, pieces(line, b'\t') - 1)
}

// The turn that a word names. Zeros before it do not count.
fn named(word: &[u8]) -> Option<Turn> {
    let start = word.iter().position(|b| *b != 0)?;
    match part(word, start, word.len()) {
        b"read" => Some(Turn::Read),
        b"print" => Some(Turn::Print),
        b"check" => Some(Turn::Check),
        b"look" => Some(Turn::Look),
        b"scan" => Some(Turn::Scan),
        b"correct" => Some(Turn::Correct),
        b"back" => Some(Turn::Back),
        b"edit" => Some(Turn::Edit),
        _ => None,
    }
}

// How many fields a row has; one that is refused may have fewer.
fn width(kind: Turn, refused: bool) -> usize {
    match kind {
        Turn::Back => 2,
        Turn::Read | Turn::Print | Turn::Check => 3,
        Turn::Look => 4,
        Turn::Scan if refused => 4,
        Turn::Scan => 8,
        Turn::Correct if refused => 6,
        Turn::Correct | Turn::Edit => 7,
        _ => 0,
    }
}

// The first turn of a row, if it has all its fields.
fn first_turn(line: &[u8]) -> Option<Turn> {
    let kind = named(field(line, 0))?;
    let fields = width(kind, is_refusal(expected(line)));
    (pieces(line, b'\t') == fields).then_some(kind)
}

// Where a line begins. A row that no kind has is wrong.
pub fn start(line: &[u8]) -> State {
    match line {
        [] | [b'/', ..] => ControlFlow::Break(Outcome::Comment),
        [b'=', ..] => ControlFlow::Break(Outcome::Group),
        _ => match first_turn(line) {
            Some(turn) => ControlFlow::Continue(Step { turn, size: 0 }),
            None => ControlFlow::Break(Outcome::Wrong),
        },
    }
}
