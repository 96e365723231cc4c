// Writing into a buffer. Where something does not fit, the buffer is left as it was.
#![tactic(auto)]

ghost use Rattle.std.specs.Prelude.{◌≡◌, [], ◌∷◌, ◌+◌, leb, replicate};
ghost use Rattle.memory.specs.Buffer.{over_if_fits, moved_up, moved_down, moved, head_put, copied};
ghost use Rattle.head.specs.HeadAnswers.{head_bytes};

use head::{argument_size, write_head};

// One byte.
pub fn put(out: &mut [u8], pos: usize, v: u8)
    ensures { out.new ≡ over_if_fits out.old pos (v ∷ []) }
{
    if pos < out.len() {
        out[pos] = v;
    }
}

// Whether `size` bytes, `by` places above a place, end at `end` or before it.
fn fits(end: usize, from: usize, by: usize, size: usize) -> bool
    ensures { result ≡ leb (from + by + size) end }
{
    size <= end && from <= end - size && by <= end - size - from
}

// Bytes that move up move from the last one down, so that none is overwritten before it has moved. With a distance that is a
// literal the compiler makes wide moves of the loop.
fn move_up_by<const BY: usize>(out: &mut [u8], from: usize, size: usize)
    ensures { out.new ≡ moved_up out.old from BY size }
{
    if !fits(out.len(), from, BY, size) {
        return;
    }
    for i in (from..from + size).rev() {
        out[i + BY] = out[i];
    }
}

// By a distance that is not known. It is no `copy_within`: the must-fail edit move_overlaps turns the order of its loop.
fn move_far(out: &mut [u8], from: usize, by: usize, size: usize)
    ensures { out.new ≡ moved_up out.old from by size }
{
    if !fits(out.len(), from, by, size) {
        return;
    }
    for i in (from..from + size).rev() {
        out[i + by] = out[i];
    }
}

// Moves bytes up by any distance.
fn move_up(out: &mut [u8], from: usize, by: usize, size: usize)
    ensures { out.new ≡ moved_up out.old from by size }
{
    match by {
        0 => {}
        1 => move_up_by::<1>(out, from, size),
        2 => move_up_by::<2>(out, from, size),
        4 => move_up_by::<4>(out, from, size),
        8 => move_up_by::<8>(out, from, size),
        _ => move_far(out, from, by, size),
    }
}

// Moves the bytes that stand `by` places above `to` down to it, from the first one up.
fn move_down(out: &mut [u8], to: usize, by: usize, size: usize)
    ensures { out.new ≡ moved_down out.old to by size }
{
    if fits(out.len(), to, by, size) {
        out.copy_within(to + by..to + by + size, to);
    }
}

// Moves bytes from one place to another, which may overlap.
pub fn move_part(out: &mut [u8], from: usize, to: usize, size: usize)
    ensures { out.new ≡ moved out.old from to size }
{
    if size == 0 {
        return;
    }
    if from <= to {
        move_up(out, from, to - from, size);
    } else {
        move_down(out, to, from - to, size);
    }
}

// Puts a head in front of the `size` bytes that stand behind one byte of room for it.
pub fn close(out: &mut [u8], pos: usize, initial: u8, argument: u64, size: usize)
    ensures { out.new ≡ head_put out.old pos (head_bytes initial argument) size }
{
    let by = argument_size(initial % 32);
    if !fits(out.len(), pos, by + 1, size) {
        return;
    }
    let from = pos + 1;
    move_up(out, from, by, size);
    write_head(out, pos, initial, argument);
}

// The first n bytes of a list, written at a place. Of the loop the compiler makes wide steps; `copy_from_slice` would call memmove, which the library asks of no caller.
pub fn copy_at(from: &[u8], n: usize, out: &mut [u8], pos: usize)
    ensures { out.new ≡ copied out.old pos from.now n }
{
    if fits(out.len(), pos, 0, n) && n <= from.len() {
        for (i, &b) in from[..n].iter().enumerate() {
            out[pos + i] = b;
        }
    }
}

// The first n bytes of a list, written to the front.
pub fn copy(from: &[u8], n: usize, out: &mut [u8])
    ensures { out.new ≡ copied out.old 0 from.now n }
{
    copy_at(from, n, out, 0);
}

// Zero bytes.
pub fn zero(out: &mut [u8], from: usize, size: usize)
    ensures { out.new ≡ over_if_fits out.old from (replicate size 0) }
{
    if fits(out.len(), from, 0, size) {
        out[from..from + size].fill(0);
    }
}
