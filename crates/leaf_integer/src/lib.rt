// The text of integers of up to 32 bits, whose heads are the shortest.
#![tactic(auto)]

mod digits;

ghost use Rattle.std.specs.Prelude.{◌≡◌, ◌+◌, ◌/◌, ◌^◌, ◌≤◌, ◌<◌, length, get_or, IfSome, IfNone};
ghost use Rattle.leaf_kind.specs.LeafKinds.{KindOf};
ghost use Rattle.leaf_kind.specs.declared.Kind.TheVariants.{Small, One, Two, Four};
ghost use Rattle.leaf_written.specs.Laying.{Laid};
ghost use Rattle.leaf_written.specs.LeafTexts.{Room, LeafTold};
ghost use Rattle.leaf_integer.specs.IntegerParts.{minus_of, More, Valued, Signed};

use crate::digits::{billions, hundreds, ten_thousands, tens};
use leaf_written::Written;

// The least arguments in one byte, in two, in four.
const LEAST_1: u64 = 24;

const LEAST_2: u64 = 0x100;

const LEAST_4: u64 = 0x1_0000;

// The major type of negative integers, which is 1, for a minus.
fn sign(major: u8, out: &mut [u8], pos: usize) -> usize
    requires pos_in_bounds { pos < length out.old }
    requires major_bound { major ≤ 1 }
    ensures laid { Laid out.old out.new pos (minus_of major) result }
    ensures upper_bound { result ≤ pos + 1 }
{
    out[pos] = b'-';
    pos + major as usize
}

// A number and one byte more.
fn more(n: u64, b: u8) -> u64
    requires { n < 256 ^ 7 }
    ensures { More n b result }
{
    n * 256 + b as u64
}

// The number that SIZE bytes make.
fn value<const SIZE: usize>(bytes: &[u8], from: usize) -> u64
    requires in_bounds { from + SIZE ≤ length bytes.now }
    requires size { SIZE ≤ 4 }
    ensures { Valued bytes.now from SIZE result }
{
    let mut n = 0;
    for i in 0..SIZE {
        n = more(n, bytes[from + i]);
    }
    n
}

// The argument of SIZE bytes, and 1 more of a negative integer, whose sign is written; nothing where a head with fewer bytes would do.
fn signed<const SIZE: usize>(
    bytes: &[u8],
    at: usize,
    least: u64,
    out: &mut [u8],
    pos: usize,
) -> Option<(u64, usize)>
    requires room { Room bytes.now at out.old pos }
    requires size { SIZE ≤ 4 }
    requires major_bound { get_or bytes.now at 0 / 32 ≤ 1 }
    ensures some { IfSome result (λ r. Signed bytes.now at SIZE least out.old out.new pos r.0 r.1) }
    ensures none { IfNone result (out.new ≡ out.old) }
{
    let n = value::<SIZE>(bytes, at + 1);
    if n < least {
        return None;
    }
    let major = bytes[at] / 32;
    let p = sign(major, out, pos);
    Some((n + major as u64, p))
}

pub fn small(bytes: &[u8], at: usize, out: &mut [u8], pos: usize) -> Option<Written>
    requires room { Room bytes.now at out.old pos }
    requires kind_of { KindOf (get_or bytes.now at 0) Small }
    ensures { LeafTold bytes.now at out.old out.new pos result }
{
    let b = bytes[at];
    let major = b / 32;
    let p = sign(major, out, pos);
    Some(Written {
        end: at + 1,
        pos: tens((b % 32 + major) as u64, out, p),
    })
}

pub fn one(bytes: &[u8], at: usize, out: &mut [u8], pos: usize) -> Option<Written>
    requires room { Room bytes.now at out.old pos }
    requires kind_of { KindOf (get_or bytes.now at 0) One }
    ensures { LeafTold bytes.now at out.old out.new pos result }
{
    let (n, p) = signed::<1>(bytes, at, LEAST_1, out, pos)?;
    Some(Written {
        end: at + 2,
        pos: hundreds(n, out, p),
    })
}

pub fn two(bytes: &[u8], at: usize, out: &mut [u8], pos: usize) -> Option<Written>
    requires room { Room bytes.now at out.old pos }
    requires kind_of { KindOf (get_or bytes.now at 0) Two }
    ensures { LeafTold bytes.now at out.old out.new pos result }
{
    let (n, p) = signed::<2>(bytes, at, LEAST_2, out, pos)?;
    Some(Written {
        end: at + 3,
        pos: ten_thousands(n, out, p),
    })
}

pub fn four(bytes: &[u8], at: usize, out: &mut [u8], pos: usize) -> Option<Written>
    requires room { Room bytes.now at out.old pos }
    requires kind_of { KindOf (get_or bytes.now at 0) Four }
    ensures { LeafTold bytes.now at out.old out.new pos result }
{
    let (n, p) = signed::<4>(bytes, at, LEAST_4, out, pos)?;
    Some(Written {
        end: at + 5,
        pos: billions(n, out, p),
    })
}
