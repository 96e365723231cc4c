// Strings of at most 23 bytes, by blocks: 32 bytes are taken at once, however many of them are the string's.
#![tactic(auto)]

ghost use Rattle.std.specs.Prelude.{◌+◌, ◌*◌, ◌≤◌, length, take, drop, get_or};
ghost use Rattle.notation.specs.Printing.{hex_of};
ghost use Rattle.leaf_kind.specs.LeafKinds.{KindOf};
ghost use Rattle.leaf_kind.specs.declared.Kind.TheVariants.{Bytes, Text};
ghost use Rattle.leaf_written.specs.Laying.{Laid};
ghost use Rattle.leaf_written.specs.LeafTexts.{Room, LeafTold};
ghost use Rattle.leaf_string.specs.StringParts.{High, Stop, Stops, quoted_hex};

use leaf_written::{Written, put};

const BLOCK: usize = 32;

// Half of it and a quarter. The digits of a part are as many as a part twice as long has bytes.
const HALF: usize = 16;

const QUARTER: usize = 8;

// 1 for a byte that is not ASCII.
fn high(b: u8) -> u8
    ensures { High b result }
{
    if b.is_ascii() { 0 } else { 1 }
}

// The place i of a byte that is not ASCII or does not stand for itself, else the end of a block.
fn stop_at(b: u8, i: u8) -> u8
    requires { i ≤ 32 }
    ensures { Stop b i result }
{
    if plain_bytes::more(b) + high(b) == 0 {
        32
    } else {
        i
    }
}

// How many bytes of a block are ASCII and stand for themselves, before the first that does not. The loop has no way out, so the compiler makes wide steps of it.
fn first_stop(bytes: &[u8], from: usize) -> u8
    requires { from + 32 ≤ length bytes.now }
    ensures { Stops bytes.now from 32 result }
{
    let mut first: u8 = 32;
    for i in 0..32 {
        first = first.min(stop_at(bytes[from + i as usize], i));
    }
    first
}

pub fn short_text(bytes: &[u8], at: usize, out: &mut [u8], pos: usize) -> Option<Written>
    requires room { Room bytes.now at out.old pos }
    requires kind_of { KindOf (get_or bytes.now at 0) Text }
    ensures { LeafTold bytes.now at out.old out.new pos result }
{
    let n = bytes[at] % 32;
    let from = at + 1;
    if first_stop(bytes, from) < n {
        return None;
    }
    let p = put(b'"', out, pos);
    buffer::copy_at(&bytes[from..], BLOCK, out, p);
    Some(Written {
        end: from + n as usize,
        pos: put(b'"', out, p + n as usize),
    })
}

// The digits of a quarter of a block, of the next one where it is reached, and so of the other half: most strings are short.
fn digits(bytes: &[u8], from: usize, n: usize, out: &mut [u8], pos: usize)
    requires from_in_bounds { from + 32 ≤ length bytes.now }
    requires pos_in_bounds { pos + 64 ≤ length out.old }
    requires n_bound { n ≤ 32 }
    ensures { Laid out.old out.new pos (hex_of (take n (drop from bytes.now))) (pos + 2 * n) }
{
    let quarter = from + QUARTER;
    let half = from + HALF;
    hex_output::hex_pairs(&bytes[from..quarter], out, pos);
    if QUARTER < n {
        hex_output::hex_pairs(&bytes[quarter..half], out, pos + HALF);
        if HALF < n {
            hex_output::hex_pairs(&bytes[half..from + BLOCK], out, pos + BLOCK);
        }
    }
}

// Digits between their quotes.
fn quoted_digits(bytes: &[u8], from: usize, n: usize, out: &mut [u8], pos: usize) -> usize
    requires from_in_bounds { from + 32 ≤ length bytes.now }
    requires pos_in_bounds { pos + 67 ≤ length out.old }
    requires n_bound { n ≤ 32 }
    ensures { Laid out.old out.new pos (quoted_hex (take n (drop from bytes.now))) result }
{
    let p = put(b'h', out, pos);
    let q = put(b'\'', out, p);
    digits(bytes, from, n, out, q);
    put(b'\'', out, q + 2 * n)
}

pub fn short_bytes(bytes: &[u8], at: usize, out: &mut [u8], pos: usize) -> Option<Written>
    requires room { Room bytes.now at out.old pos }
    requires kind_of { KindOf (get_or bytes.now at 0) Bytes }
    ensures { LeafTold bytes.now at out.old out.new pos result }
{
    let n = (bytes[at] % 32) as usize;
    let from = at + 1;
    Some(Written {
        end: from + n,
        pos: quoted_digits(bytes, from, n, out, pos),
    })
}
