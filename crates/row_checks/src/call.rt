// What a turn of a row asks for: the buffers that a call is lent are filled from the line, or with what the turn before kept. None where
// a field cannot be read.
ghost use Rattle.std.specs.Prelude.{◌≡◌, length};

use rows::cut::{field, number};
use rows::fill::{Form, copy, fill_around, fill_field, path};
use rows::turn::Turn;

// What stands in a buffer that is lent, before a call.
const LENT: u8 = 0xee;

// How many bytes are lent for a result.
pub const LENT_BYTES: usize = 65536;

// A buffer to lend.
pub fn lent() -> [u8; 65536]
    ensures { 65536 ≡ length result }
{
    [LENT; 65536]
}

// The functions that are asked.
#[derive(Clone, Copy, PartialEq, Eq)]
pub enum Function {
    Read,
    Print,
    Check,
    Look,
    Scan,
    Correct,
}

// The function that a turn asks.
pub fn function_of(turn: Turn) -> Function {
    match turn {
        Turn::Read
        | Turn::ShortRead
        | Turn::ReadBack
        | Turn::Edit
        | Turn::ReadEdited
        | Turn::ReadRefused => Function::Read,
        Turn::Print | Turn::ShortPrint | Turn::Back => Function::Print,
        Turn::Check => Function::Check,
        Turn::Look => Function::Look,
        Turn::Scan => Function::Scan,
        Turn::Correct | Turn::CorrectUsed | Turn::EditBytes => Function::Correct,
    }
}

// The form of the field that is the input.
fn input_form(turn: Turn) -> Form {
    match turn {
        Turn::Read | Turn::ShortRead | Turn::Correct | Turn::CorrectUsed | Turn::EditBytes => {
            Form::Text
        }
        _ => Form::Hex,
    }
}

// The number of that field.
fn input_field(turn: Turn) -> usize {
    match turn {
        Turn::Correct | Turn::CorrectUsed => 4,
        Turn::EditBytes => 5,
        _ => 1,
    }
}

// The input: a text or bytes of the line, or what the turn before kept.
fn input_of(turn: Turn, line: &[u8], before: &[u8], out: &mut [u8]) -> Option<usize> {
    match turn {
        Turn::Edit => fill_around(line, false, 2, out),
        Turn::ReadEdited | Turn::ReadRefused => fill_around(line, true, 5, out),
        Turn::ReadBack => copy(before, out),
        _ => fill_field(input_form(turn), line, input_field(turn), 0, out),
    }
}

// The path, where the function takes one.
fn path_of(turn: Turn, line: &[u8], out: &mut [u16]) -> Option<usize> {
    match turn {
        Turn::Look => path(field(line, 2), out),
        Turn::Correct | Turn::CorrectUsed => path(field(line, 3), out),
        Turn::EditBytes => path(field(line, 4), out),
        _ => Some(0),
    }
}

// The place of a scan; or how much of the buffer of a correction is in use, with the bytes of that.
fn used_of(turn: Turn, line: &[u8], before: &[u8], out: &mut [u8]) -> Option<usize> {
    match turn {
        Turn::Scan => number(field(line, 2)),
        Turn::Correct | Turn::CorrectUsed => fill_field(Form::Hex, line, 1, 0, out),
        Turn::EditBytes => copy(before, out),
        _ => Some(0),
    }
}

// How much is lent: for a correction the used bytes, and the spare ones behind them; or one byte too few for what the turn before kept.
fn room_of(turn: Turn, line: &[u8], kept: usize, used: usize, out: &mut [u8]) -> Option<usize> {
    match turn {
        Turn::ShortRead | Turn::ShortPrint => Some(kept.saturating_sub(1)),
        Turn::Correct | Turn::CorrectUsed => fill_field(Form::Hex, line, 2, used, out),
        _ => Some(LENT_BYTES),
    }
}

// The number that is asked with: in the first turn of a correction a used length that is one over the buffer.
pub fn number_of(turn: Turn, used: usize, room: usize) -> usize {
    match turn {
        Turn::Correct if room <= LENT_BYTES => room + 1,
        _ => used,
    }
}

// How much of each buffer a call takes, and how much it is lent.
#[derive(Clone, Copy)]
pub struct Asked {
    pub input: usize,
    pub path: usize,
    pub used: usize,
    pub room: usize,
}

// Fills the buffers of a call. `before` is what the turn before kept.
pub fn prepare(
    turn: Turn,
    line: &[u8],
    before: &[u8],
    input: &mut [u8],
    path: &mut [u16],
    out: &mut [u8],
) -> Option<Asked> {
    let input = input_of(turn, line, before, input)?;
    let path = path_of(turn, line, path)?;
    let used = used_of(turn, line, before, out)?;
    let room = room_of(turn, line, before.len(), used, out)?;
    Some(Asked {
        input,
        path,
        used,
        room,
    })
}
