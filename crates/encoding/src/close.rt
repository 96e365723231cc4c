// What is put around the things of a container that was read: its head, or a first byte and a break.
ghost use Rattle.std.specs.Prelude.{true, ◌+◌};
ghost use Rattle.head.specs.HeadAnswers.{head_bytes};
ghost use Rattle.encoding.specs.ReadAnswers.{Light, Heavy, Few, IsShort, Closes, Finished, FinishedShort, Ended};

use crate::answer::{MadeItem, done, refuse};
use crate::heads::{head_size, info_by};
use head::initial::{BREAK, BYTE_STRING};
use numbers::indicator::choose;
use refusal::{Refusal, RefusalKind};
use token::indicator::{MISFIT, NONE};

// A thing of indefinite length: its first byte, and a break behind what was read.
pub fn endless(
    buf: &mut [u8],
    pos: usize,
    first: u8,
    next: usize,
    size: usize,
    binary: bool,
    length: usize,
) -> Result<MadeItem, Refusal>
    requires { Light (pos + size) }
    ensures { Ended buf.old buf.new pos first next size binary length result }
{
    buffer::put(buf, pos, first);
    buffer::put(buf, pos + size + 1, BREAK);
    done(next, size + 2, binary, length)
}

// Puts a head before the `size` bytes that stand behind one byte of room for it, and answers the size of the head. Mostly it is one byte.
fn put_before(buf: &mut [u8], pos: usize, first: u8, n: u64, size: usize) -> usize
    ensures { Closes buf.old buf.new pos (head_bytes first n) size result }
{
    let head = head_size(first);
    if head == 1 {
        buffer::put(buf, pos, first);
        return 1;
    }
    buffer::close(buf, pos, first, n, size);
    head
}

// The head, as an indicator asks, before what was read behind a byte of room for it.
pub fn finish(
    buf: &mut [u8],
    pos: usize,
    major: u8,
    indicator: u8,
    n: usize,
    next: usize,
    size: usize,
    place: usize,
    binary: bool,
    length: usize,
) -> Result<MadeItem, Refusal>
    requires { Heavy major size }
    ensures { Finished buf.old buf.new pos 1 major indicator n next size place binary length result }
{
    let width = choose(indicator, n as u64);
    if width == MISFIT {
        return refuse(RefusalKind::BadIndicator, place);
    }
    let first = major * 32 + info_by(width, n as u64);
    let head = put_before(buf, pos, first, n as u64, size);
    done(next, head + size, binary, length)
}

// The least count that does not stand in the first byte of a head.
const NOT_SHORT: usize = 24;

// Whether a head is one byte: few things, and no indicator.
pub fn is_short(indicator: u8, count: usize) -> bool
    ensures { IsShort indicator count result }
{
    if indicator == NONE {
        return count < NOT_SHORT;
    }
    false
}

// The same without an indicator for so few things that the head is one byte.
pub fn finish_short(
    buf: &mut [u8],
    pos: usize,
    major: u8,
    n: usize,
    next: usize,
    size: usize,
) -> Result<MadeItem, Refusal>
    requires heavy { Heavy major size }
    requires few { Few n }
    ensures { FinishedShort buf.old buf.new pos major n next size result }
{
    buffer::put(buf, pos, major * 32 + n as u8);
    done(next, size + 1, false, 0)
}

// The head of a byte string, as an indicator asks, before its content, which stands behind some room for it. Where the room is right,
// nothing is moved.
pub fn enclose(
    buf: &mut [u8],
    pos: usize,
    room: usize,
    indicator: u8,
    next: usize,
    size: usize,
    place: usize,
) -> Result<MadeItem, Refusal>
    requires heavy { Heavy room size }
    requires light { Light pos }
    ensures { Finished buf.old buf.new pos room 2 indicator size next size place true size result }
{
    let width = choose(indicator, size as u64);
    if width == MISFIT {
        return refuse(RefusalKind::BadIndicator, place);
    }
    let first = BYTE_STRING * 32 + info_by(width, size as u64);
    let head = head_size(first);
    buffer::move_part(buf, pos + room, pos + head, size);
    head::write_head(buf, pos, first, size as u64);
    done(next, head + size, true, size)
}
