// Whether what came of a turn is what the row says, and which turn is next.
use crate::call::{LENT_BYTES, lent};
use crate::compare::{equal, equals, refused};
use crate::reply::{Done, Item, Refused, Reply};
use rows::cut::{field, part};
use rows::fill::{Form, copy, fill_field};
use rows::turn::{Outcome, State, Step, Turn, expected, is_refusal};
use std::ops::ControlFlow;

// Two refusals: a used length that is over the buffer, and a buffer that is too short.
const TOO_LONG: Refused = Refused {
    number: 1,
    place: 0,
};

const NO_ROOM: Refused = Refused {
    number: 14,
    place: 0,
};

// The buffer of a correction, with the bytes of field number k in use and those of field number m behind them: how many are in use, where
// these just fill the room.
fn in_use(line: &[u8], k: usize, m: usize, room: usize, want: &mut [u8]) -> Option<usize> {
    let used = fill_field(Form::Hex, line, k, 0, want)?;
    (fill_field(Form::Hex, line, m, used, want)? == room).then_some(used)
}

// What is to stand in the lent buffer after a call, and how many bytes the answer is to tell.
fn wanted(
    turn: Turn,
    is_done: bool,
    line: &[u8],
    room: usize,
    before: &[u8],
    want: &mut [u8],
) -> Option<usize> {
    match turn {
        Turn::ReadEdited => copy(before, want),
        Turn::Read if is_done => fill_field(Form::Hex, line, 2, 0, want),
        Turn::Print if is_done => fill_field(Form::Text, line, 2, 0, want),
        Turn::ReadBack if is_done => fill_field(Form::Hex, line, 1, 0, want),
        Turn::CorrectUsed if is_done => in_use(line, 5, 6, room, want),
        Turn::Correct | Turn::CorrectUsed if !is_done => in_use(line, 1, 2, room, want),
        _ => Some(0),
    }
}

// Whether the answer is what the row says: so many bytes, or a refusal.
fn as_expected(r: Reply, line: &[u8], n: Option<usize>) -> bool {
    let want = expected(line);
    match r {
        Err(e) => refused(e, want),
        Ok(Done::Written(size)) => n == Some(size) && !is_refusal(want),
        Ok(_) => false,
    }
}

// Whether a call that was lent a buffer answered what it should.
fn answers(turn: Turn, r: Reply, line: &[u8], n: Option<usize>) -> bool {
    match turn {
        Turn::ShortRead | Turn::ShortPrint => r.err() == Some(NO_ROOM),
        Turn::Correct => r.err() == Some(TOO_LONG),
        Turn::ReadRefused => r.is_err(),
        _ => as_expected(r, line, n),
    }
}

// Whether it did, and all of the buffer is as it should be.
fn wrote(turn: Turn, r: Reply, line: &[u8], out: &[u8], room: usize, before: &[u8]) -> bool {
    let mut want = lent();
    let n = wanted(turn, r.is_ok(), line, room, before, &mut want);
    answers(turn, r, line, n) && out == want.as_slice()
}

// Whether there are bytes to go on with.
fn went(r: Reply) -> bool {
    matches!(r, Ok(Done::Written(n)) if n <= LENT_BYTES)
}

// Whether the bytes of a text were corrected, or that was refused, as the row says.
fn edited(r: Reply, want: &[u8]) -> bool {
    match want {
        b"ok" => went(r),
        b"no" => r.is_err(),
        _ => false,
    }
}

// Whether an item is what the row says.
fn is_item(i: Item, line: &[u8]) -> bool {
    equals(i.major, field(line, 3))
        && equals(i.info, field(line, 4))
        && equals(i.argument, field(line, 5))
        && equals(i.content, field(line, 6))
        && equals(i.end, field(line, 7))
}

// Whether bytes were checked, looked up or scanned as the row says.
fn found(r: Reply, line: &[u8]) -> bool {
    let want = expected(line);
    match r {
        Err(e) => refused(e, want),
        Ok(Done::Accepted) => matches!(want, b"ok"),
        Ok(Done::Part(start, end)) => equal(start as u64, end as u64, b'-', want),
        Ok(Done::Item(i)) => is_item(i, line),
        Ok(_) => false,
    }
}

// Whether a turn came out right, where a call was lent some room at the front of `out`. `before` is what the turn before kept.
fn is_right(turn: Turn, r: Reply, line: &[u8], out: &[u8], room: usize, before: &[u8]) -> bool {
    match turn {
        Turn::Back | Turn::Edit => went(r),
        Turn::EditBytes => edited(r, expected(line)),
        Turn::Check | Turn::Look | Turn::Scan => found(r, line),
        _ => wrote(turn, r, line, out, room, before),
    }
}

// The turn after one that came out right, if there is one; `size` is how many bytes were written. A result that has bytes is asked for
// once more, with a buffer that is one byte too short.
fn next_turn(turn: Turn, is_done: bool, size: usize) -> Option<Turn> {
    match turn {
        Turn::Read if is_done && 0 < size => Some(Turn::ShortRead),
        Turn::Print if is_done && 0 < size => Some(Turn::ShortPrint),
        Turn::Back => Some(Turn::ReadBack),
        Turn::Correct => Some(Turn::CorrectUsed),
        Turn::Edit => Some(Turn::EditBytes),
        Turn::EditBytes if is_done => Some(Turn::ReadEdited),
        Turn::EditBytes => Some(Turn::ReadRefused),
        _ => None,
    }
}

// What comes after a turn, by the answer to its call. What was written is kept.
pub fn judge(
    line: &[u8],
    step: Step,
    room: usize,
    r: Reply,
    out: &[u8; 65536],
    kept: &mut [u8],
) -> State {
    let turn = step.turn;
    if !is_right(turn, r, line, out, room, part(kept, 0, step.size)) {
        return ControlFlow::Break(Outcome::Wrong);
    }
    let size = match r {
        Ok(Done::Written(n)) => copy(part(out, 0, n), kept).unwrap_or(0),
        _ => 0,
    };
    match next_turn(turn, r.is_ok(), size) {
        Some(turn) => ControlFlow::Continue(Step { turn, size }),
        None => ControlFlow::Break(Outcome::Right),
    }
}
