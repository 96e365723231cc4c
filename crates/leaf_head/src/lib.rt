// The shortest head of a major type and an argument. Arguments come in any size, and a branch on it would be foretold badly: so there is
// none, and eight bytes are written for the argument, of which what follows writes over those that are not its.
#![tactic(auto)]

ghost use Rattle.std.specs.Prelude.{◌≡◌, ◌+◌, ◌≤◌};
ghost use Rattle.cbor.specs.Widths.{shortest, information, big_endian};
ghost use Rattle.memory.specs.Buffer.{over_if_fits};
ghost use Rattle.leaf_head.specs.HeadParts.{HeadMade, Above, steps, StepBytes, Scales};

use encoding::heads::head_size;

// One if an argument is above a limit.
fn above(n: u64, limit: u64) -> usize
    ensures { Above n limit result }
{
    usize::from(limit < n)
}

// The width of an argument, by its place among the five.
fn step(n: u64) -> usize
    ensures { result ≡ steps (shortest n) }
{
    above(n, 23) + above(n, 0xff) + above(n, 0xffff) + above(n, 0xffff_ffff)
}

fn info_of(step: usize, n: u64) -> u8
    requires { step ≡ steps (shortest n) }
    ensures { result ≡ information (shortest n) n }
{
    if step == 0 { n as u8 } else { 23 + step as u8 }
}

// How many bytes hold the argument.
fn bytes_of(step: usize) -> usize
    ensures { StepBytes step result }
{
    match step {
        0 => 0,
        1 => 1,
        2 => 2,
        3 => 4,
        _ => 8,
    }
}

// What brings them to the front of eight.
fn scale_of(step: usize) -> u64
    ensures { Scales step result }
{
    match step {
        0 => 0x100_0000_0000_0000,
        1 => 0x100_0000_0000_0000,
        2 => 0x1_0000_0000_0000,
        3 => 0x1_0000_0000,
        _ => 1,
    }
}

// A number in eight bytes, if they fit. The compiler makes one store of them.
fn put_eight(buf: &mut [u8], from: usize, n: u64)
    ensures { buf.new ≡ over_if_fits buf.old from (big_endian 8 n) }
{
    if buf.len() < 8 || buf.len() - 8 < from {
        return;
    }
    let mut m = n;
    for k in (0..8).rev() {
        buf[from + k] = (m % 256) as u8;
        m /= 256;
    }
}

// Writes the head with no byte more, if it fits.
fn put_exactly(buf: &mut [u8], pos: usize, major: u8, n: u64) -> usize
    requires { major ≤ 7 }
    ensures { HeadMade buf.old buf.new pos major n result }
{
    let first = major * 32 + head::shortest_info(n);
    head::write_head(buf, pos, first, n);
    head_size(first)
}

// Writes the head, if it fits, and answers its size.
pub fn put_head(buf: &mut [u8], pos: usize, major: u8, n: u64) -> usize
    requires { major ≤ 7 }
    ensures { HeadMade buf.old buf.new pos major n result }
{
    if buf.len() < 9 || buf.len() - 9 < pos {
        return put_exactly(buf, pos, major, n);
    }
    let step = step(n);
    buffer::put(buf, pos, major * 32 + info_of(step, n));
    put_eight(buf, pos + 1, n * scale_of(step));
    1 + bytes_of(step)
}
