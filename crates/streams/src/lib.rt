// Reads a stream to its end, and writes all of a slice, where a call that fails is told from the end of the input, and one that a signal
// interrupted is made again.
#![tactic(auto)]

ghost use Rattle.std.specs.Prelude.{◌≡◌, ◌^◌, ◌<◌, pos, negsuc, IfOk, IfErr, OnOk, unwrap_or, length, take};
ghost use Rattle.std.specs.Io.{ReadsAtMost, WritesAtMost};
ghost use Rattle.std.specs.Io.KnownBytes.{Appends, Consumes, IsAtEnd, ReadConsumes, WriteAppends};
ghost use Rattle.std.specs.IoError.{raw_os_error};
ghost use Rattle.io.specs.Counts.{IsPrefixLen};
ghost use Rattle.transfer.specs.Transfers.{transfer_of};
ghost use Rattle.streams.specs.Streams.{count_of, moved_in};

use std::io::{Eprint, Error, Read, Write};
use std::{io, str};
use transfer::{Failure, Moved, meaning};

// What stopped a stream before its end: how many bytes had been moved by then, and the system's number of the error. It is 0 where there is
// none, as `meaning` and `fail` take it.
#[derive(Clone, Copy, Debug, PartialEq, Eq)]
pub struct CutOff {
    pub size: usize,
    pub error: i32,
}

// A proved loop ends, and nothing says that signals do: a number of calls that no run uses up.
const MOST_CALLS: u64 = u64::MAX;

// What the answer of a call means. A failure with no number is no interruption.
fn came_to(answer: io::Result<usize>) -> Result<Moved, Failure>
    requires { IfOk answer (λ n. n < 2 ^ 63) }
    ensures moved { IfOk answer (λ n. result ≡ transfer_of (pos n) (pos 0)) }
    ensures failed { IfErr answer (λ e. result ≡ transfer_of (negsuc 0) (unwrap_or (raw_os_error e) (pos 0))) }
{
    match answer {
        Ok(n) => meaning(n as isize, 0),
        Err(e) => meaning(-1, e.raw_os_error().unwrap_or(0)),
    }
}

fn read_some<R: Read>(from: &mut R, buf: &mut [u8]) -> Result<Moved, Failure>
    ensures bound { ReadsAtMost (moved_in result) buf.new }
    ensures bytes { ReadConsumes (R.remaining from.old) (R.remaining from.new) (moved_in result) buf.new }
{
    came_to(from.read(buf))
}

fn write_some<W: Write>(to: &mut W, buf: &[u8]) -> Result<Moved, Failure>
    ensures bound { WritesAtMost (moved_in result) buf.now }
    ensures bytes { WriteAppends (W.contents to.old) (W.contents to.new) (moved_in result) buf.now }
{
    came_to(to.write(buf))
}

// Reads until the input ends or the buffer is full, and answers how many bytes it read.
pub fn read_all<R: Read>(from: &mut R, buf: &mut [u8]) -> Result<usize, CutOff>
    ensures prefix { IsPrefixLen (count_of result) buf.new }
    ensures bytes { Consumes (R.remaining from.old) (R.remaining from.new) (take (count_of result) buf.new) }
    ensures whole { IfOk result (λ n. n < length buf.new → IsAtEnd (R.remaining from.new)) }
{
    let mut read = 0;
    for _ in 0..MOST_CALLS {
        if read == buf.len() {
            return Ok(read);
        }
        match read_some(from, &mut buf[read..]) {
            Ok(Moved::End) => return Ok(read),
            Ok(Moved::Bytes(n)) => read += n,
            Err(Failure::Interrupted) => {}
            Err(Failure::Other(error)) => return Err(CutOff { size: read, error }),
        }
    }
    Err(CutOff {
        size: read,
        error: 0,
    })
}

// Writes all of a slice.
pub fn write_all<W: Write>(to: &mut W, buf: &[u8]) -> Result<(), CutOff>
    ensures whole { OnOk result (Appends (W.contents to.old) (W.contents to.new) buf.now) }
    ensures front { IfErr result (λ e. Appends (W.contents to.old) (W.contents to.new) (take e.size buf.now)) }
{
    let mut written = 0;
    for _ in 0..MOST_CALLS {
        if written == buf.len() {
            return Ok(());
        }
        match write_some(to, &buf[written..]) {
            Ok(Moved::End) => return Err(CutOff {
                size: written,
                error: 0,
            }),
            Ok(Moved::Bytes(n)) => written += n,
            Err(Failure::Interrupted) => {}
            Err(Failure::Other(error)) => return Err(CutOff {
                size: written,
                error,
            }),
        }
    }
    Err(CutOff {
        size: written,
        error: 0,
    })
}

// Writes a line to standard error: what failed, a colon, and the system's text of the error of this number.
pub fn fail<R: Eprint>(rt: &R, what: &str, error: i32) {
    let mut bytes = [0u8; 320];
    let mut rest = &mut bytes[..];
    let _ = write!(rest, "{}", Error::from_raw_os_error(error));
    let said = str::from_utf8(&bytes).unwrap_or("");
    // The error's number follows its text.
    let text = said
        .rsplit_once(" (os error ")
        .map_or(said, |(text, _)| text);
    let _ = eprintln!(rt; "{what}: {text}");
}
