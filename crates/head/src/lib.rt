// Heads (RFC 8949, section 3): an initial byte and the bytes of the argument behind it.
#![tactic(auto)]

pub mod initial;

ghost use Rattle.std.specs.Prelude.{◌≡◌, ◌/◌, ◌%◌, ◌<◌, length, take, drop};
ghost use Rattle.cbor.specs.Widths.{shortest, information, big_endian, value_from};
ghost use Rattle.memory.specs.Buffer.{over_if_fits};
ghost use Rattle.refusal.specs.RefusalKinds.{kind_number};
ghost use Rattle.head.specs.HeadAnswers.{head_found, head_refused, head_told, head_at, argument_size, head_bytes, Formed, Widened, Inside, argument_by, least_argument, Little, argument_at, Short, HeadRoom, HeadEnd};

use crate::initial::{
    IN_EIGHT_BYTES, IN_FOUR_BYTES, IN_ONE_BYTE, IN_TWO_BYTES, LAST_RESERVED, LEAST_SIMPLE,
    NEGATIVE_INTEGER, SIMPLE_IN_ONE_BYTE, SIMPLE_VALUE, TAG,
};
use refusal::{Refusal, RefusalKind};

// A head that was read. Its additional information is the argument itself up to 23, 24 to 27 where the argument is in the
// bytes behind it, and 31 where the length is indefinite, or at a break; the argument is 0 there. It ends before `end`.
#[derive(Drop)]
pub struct HeadAt {
    pub major: u8,
    pub info: u8,
    pub argument: u64,
    pub end: usize,
}

fn refuse(kind: RefusalKind, place: usize) -> Result<HeadAt, Refusal>
    ensures { head_told result ≡ head_refused (kind_number kind) place }
{
    Err(Refusal { kind, place })
}

fn found(initial: u8, argument: u64, end: usize) -> Result<HeadAt, Refusal>
    ensures { head_told result ≡ head_found (initial / 32) (initial % 32) argument end }
{
    Ok(HeadAt {
        major: initial / 32,
        info: initial % 32,
        argument,
        end,
    })
}

// What an initial byte says: an argument is in it or behind it; a length is indefinite, or it is a break; or why it is refused.
#[derive(Drop)]
enum Meaning {
    Argument,
    OpenEnded,
    Refused(RefusalKind),
}

fn form(initial: u8) -> Meaning
    ensures { Formed initial result }
{
    let major = initial / 32;
    let info = initial % 32;
    if info <= IN_ONE_BYTE {
        return Meaning::Argument;
    }
    if info <= IN_EIGHT_BYTES {
        if major == SIMPLE_VALUE {
            return Meaning::Refused(RefusalKind::Float);
        }
        return Meaning::Argument;
    }
    if info <= LAST_RESERVED {
        return Meaning::Refused(RefusalKind::NotWellFormed);
    }
    if major <= NEGATIVE_INTEGER {
        return Meaning::Refused(RefusalKind::NotWellFormed);
    }
    if major == TAG {
        Meaning::Refused(RefusalKind::NotWellFormed)
    } else {
        Meaning::OpenEnded
    }
}

// How many bytes behind the initial byte hold the argument.
pub fn argument_size(info: u8) -> usize
    ensures { result ≡ argument_size info }
{
    match info {
        IN_ONE_BYTE => 1,
        IN_TWO_BYTES => 2,
        IN_FOUR_BYTES => 4,
        IN_EIGHT_BYTES => 8,
        _ => 0,
    }
}

fn wide(b: u8) -> u64
    ensures { Widened b result }
{
    b as u64
}

// The number that bytes make, `size` of them from a place on, high byte first.
fn read_number(bytes: &[u8], from: usize, size: usize) -> u64
    requires { Inside bytes.now from size }
    ensures { result ≡ value_from 0 (take size (drop from bytes.now)) }
{
    let mut v: u64 = 0;
    for i in 0..size {
        v = v * 256 + wide(bytes[from + i]);
    }
    v
}

// The argument: the additional information itself, or the number in the bytes behind it.
fn argument_at(bytes: &[u8], from: usize, info: u8, size: usize) -> u64
    requires { Inside bytes.now from size }
    ensures { result ≡ argument_by size info (take size (drop from bytes.now)) }
{
    if size == 0 {
        return wide(info);
    }
    read_number(bytes, from, size)
}

// The least argument that an initial byte may have: f8 is followed by 20 hex or more.
fn least_argument(initial: u8) -> u64
    ensures { result ≡ least_argument initial }
{
    if initial == SIMPLE_IN_ONE_BYTE {
        LEAST_SIMPLE
    } else {
        0
    }
}

// The head at a place.
pub fn read_head(bytes: &[u8], at: usize) -> Result<HeadAt, Refusal>
    ensures { head_told result ≡ head_at bytes.now at }
{
    if bytes.len() <= at {
        return refuse(RefusalKind::EndsInside, bytes.len());
    }
    let initial = bytes[at];
    match form(initial) {
        Meaning::Refused(kind) => refuse(kind, at),
        Meaning::OpenEnded => found(initial, 0, at + 1),
        Meaning::Argument => {
            let info = initial % 32;
            let size = argument_size(info);
            if bytes.len() - at <= size {
                return refuse(RefusalKind::EndsInside, at);
            }
            let argument = argument_at(bytes, at + 1, info, size);
            if argument < least_argument(initial) {
                return refuse(RefusalKind::NotWellFormed, at);
            }
            found(initial, argument, at + 1 + size)
        }
    }
}

// Whether an argument is below the least that its initial byte may have.
fn is_little(bytes: &[u8], from: usize, initial: u8, size: usize) -> bool
    requires { Inside bytes.now from size }
    ensures { Little bytes.now from initial size result }
{
    if initial != SIMPLE_IN_ONE_BYTE {
        return false;
    }
    argument_at(bytes, from, initial % 32, size) < LEAST_SIMPLE
}

// Whether a head is its initial byte alone, with the argument in it.
fn is_short(initial: u8) -> bool
    ensures { Short initial result }
{
    initial % 32 < IN_ONE_BYTE
}

// Where another head at a place ends, if it is not refused.
fn long_end(bytes: &[u8], at: usize) -> Option<usize>
    requires { at < length bytes.now }
    ensures { HeadEnd bytes.now at result }
{
    let initial = bytes[at];
    match form(initial) {
        Meaning::Refused(_) => None,
        Meaning::OpenEnded => Some(at + 1),
        Meaning::Argument => {
            let size = argument_size(initial % 32);
            if bytes.len() - at <= size {
                return None;
            }
            if is_little(bytes, at + 1, initial, size) {
                return None;
            }
            Some(at + 1 + size)
        }
    }
}

// Where the head at a place ends, if it is not refused: of what `read_head` answers, the part that a walk asks for most.
pub fn head_end(bytes: &[u8], at: usize) -> Option<usize>
    ensures { HeadEnd bytes.now at result }
{
    if bytes.len() <= at {
        return None;
    }
    if is_short(bytes[at]) {
        return Some(at + 1);
    }
    long_end(bytes, at)
}

// The argument of a head that is not refused.
pub fn head_argument(bytes: &[u8], at: usize) -> u64
    requires { HeadRoom bytes.now at }
    ensures { result ≡ argument_at bytes.now at }
{
    let initial = bytes[at];
    let info = initial % 32;
    if is_short(initial) {
        return wide(info);
    }
    match form(initial) {
        Meaning::OpenEnded => 0,
        _ => argument_at(bytes, at + 1, info, argument_size(info)),
    }
}

// The additional information of the shortest head for an argument.
pub fn shortest_info(n: u64) -> u8
    ensures { result ≡ information (shortest n) n }
{
    if n <= 23 {
        n as u8
    } else if n <= 0xff {
        IN_ONE_BYTE
    } else if n <= 0xffff {
        IN_TWO_BYTES
    } else if n <= 0xffff_ffff {
        IN_FOUR_BYTES
    } else {
        IN_EIGHT_BYTES
    }
}

// Writes a number in `size` bytes from a place on, high byte first, if they fit.
fn write_number(out: &mut [u8], from: usize, size: usize, n: u64)
    ensures { out.new ≡ over_if_fits out.old from (big_endian size n) }
{
    if out.len() < size {
        return;
    }
    if out.len() - size < from {
        return;
    }
    let mut m = n;
    for k in (0..size).rev() {
        out[from + k] = (m % 256) as u8;
        m /= 256;
    }
}

// Writes an initial byte and the bytes of the argument that its additional information asks for, if they all fit.
pub fn write_head(out: &mut [u8], at: usize, initial: u8, argument: u64)
    ensures { out.new ≡ over_if_fits out.old at (head_bytes initial argument) }
{
    let size = argument_size(initial % 32);
    if out.len() <= at {
        return;
    }
    if out.len() - at <= size {
        return;
    }
    out[at] = initial;
    write_number(out, at + 1, size, argument);
}
