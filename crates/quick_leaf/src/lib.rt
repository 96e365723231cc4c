// Leaves that a walk passes over by a table and a block of the bytes behind the initial byte, with no branch that depends on their kind. Most items are such.
#![tactic(auto)]

ghost use Rattle.std.specs.Prelude.{◌≡◌, ◌+◌, ◌≤◌, min, ltb, eqb, length};
ghost use Rattle.quick_leaf.specs.WalkLeaves.{all_bits, LeafSize, LeafContent, LeafAt, Bounded, Topped, Blocked, Right};

// What stands for the size of an item that is no leaf. It is above all sizes.
pub const NO_LEAF: u8 = 0xff;

// The bytes of a block, with the initial byte before it.
const BLOCK: usize = 33;

// The size of the item that an initial byte begins: a number, a simple value, a string of at most 23 bytes. A row of sixteen bytes behind each comment. It is a
// table and no `match`, into which the compiler would take the caller's test for NO_LEAF, and branch by the kinds of leaves.
const SIZE: [u8; 256] = [
    // 00 to 0f: integers
    1, 1, 1, 1, 1, 1, 1, 1, 1, 1, 1, 1, 1, 1, 1, 1,
    // 10 to 1f: integers
    1, 1, 1, 1, 1, 1, 1, 1, 2, 3, 5, 9, NO_LEAF, NO_LEAF, NO_LEAF, NO_LEAF,
    // 20 to 2f: negative integers
    1, 1, 1, 1, 1, 1, 1, 1, 1, 1, 1, 1, 1, 1, 1, 1,
    // 30 to 3f: negative integers
    1, 1, 1, 1, 1, 1, 1, 1, 2, 3, 5, 9, NO_LEAF, NO_LEAF, NO_LEAF, NO_LEAF,
    // 40 to 4f: byte strings
    1, 2, 3, 4, 5, 6, 7, 8, 9, 10, 11, 12, 13, 14, 15, 16,
    // 50 to 5f: byte strings
    17, 18, 19, 20, 21, 22, 23, 24, NO_LEAF, NO_LEAF, NO_LEAF, NO_LEAF, NO_LEAF, NO_LEAF, NO_LEAF,
    NO_LEAF,
    // 60 to 6f: text strings
    1, 2, 3, 4, 5, 6, 7, 8, 9, 10, 11, 12, 13, 14, 15, 16,
    // 70 to 7f: text strings
    17, 18, 19, 20, 21, 22, 23, 24, NO_LEAF, NO_LEAF, NO_LEAF, NO_LEAF, NO_LEAF, NO_LEAF, NO_LEAF,
    NO_LEAF,
    // 80 to 8f: arrays
    NO_LEAF, NO_LEAF, NO_LEAF, NO_LEAF, NO_LEAF, NO_LEAF, NO_LEAF, NO_LEAF, NO_LEAF, NO_LEAF,
    NO_LEAF, NO_LEAF, NO_LEAF, NO_LEAF, NO_LEAF, NO_LEAF,
    // 90 to 9f: arrays
    NO_LEAF, NO_LEAF, NO_LEAF, NO_LEAF, NO_LEAF, NO_LEAF, NO_LEAF, NO_LEAF, NO_LEAF, NO_LEAF,
    NO_LEAF, NO_LEAF, NO_LEAF, NO_LEAF, NO_LEAF, NO_LEAF,
    // a0 to af: maps
    NO_LEAF, NO_LEAF, NO_LEAF, NO_LEAF, NO_LEAF, NO_LEAF, NO_LEAF, NO_LEAF, NO_LEAF, NO_LEAF,
    NO_LEAF, NO_LEAF, NO_LEAF, NO_LEAF, NO_LEAF, NO_LEAF,
    // b0 to bf: maps
    NO_LEAF, NO_LEAF, NO_LEAF, NO_LEAF, NO_LEAF, NO_LEAF, NO_LEAF, NO_LEAF, NO_LEAF, NO_LEAF,
    NO_LEAF, NO_LEAF, NO_LEAF, NO_LEAF, NO_LEAF, NO_LEAF,
    // c0 to cf: tags
    NO_LEAF, NO_LEAF, NO_LEAF, NO_LEAF, NO_LEAF, NO_LEAF, NO_LEAF, NO_LEAF, NO_LEAF, NO_LEAF,
    NO_LEAF, NO_LEAF, NO_LEAF, NO_LEAF, NO_LEAF, NO_LEAF,
    // d0 to df: tags
    NO_LEAF, NO_LEAF, NO_LEAF, NO_LEAF, NO_LEAF, NO_LEAF, NO_LEAF, NO_LEAF, NO_LEAF, NO_LEAF,
    NO_LEAF, NO_LEAF, NO_LEAF, NO_LEAF, NO_LEAF, NO_LEAF,
    // e0 to ef: simple values
    1, 1, 1, 1, 1, 1, 1, 1, 1, 1, 1, 1, 1, 1, 1, 1,
    // f0 to ff: simple values; behind f7 a second byte, floats, the break
    1, 1, 1, 1, 1, 1, 1, 1, NO_LEAF, NO_LEAF, NO_LEAF, NO_LEAF, NO_LEAF, NO_LEAF, NO_LEAF, NO_LEAF,
];

// The size of an item that its initial byte tells.
fn leaf_size(initial: u8) -> u8
    ensures { LeafSize initial result }
{
    SIZE[initial as usize]
}

// All bits if a test holds, else none.
#[tactic(auto, unfolding(crate::specs::WalkLeaves::all_bits))]
pub fn if_below(a: u8, b: u8) -> u8
    ensures { result ≡ all_bits (ltb a b) }
{
    if a < b { 0xff } else { 0 }
}

#[tactic(auto, unfolding(crate::specs::WalkLeaves::all_bits))]
fn if_same(a: u8, b: u8) -> u8
    ensures { result ≡ all_bits (eqb a b) }
{
    if a == b { 0xff } else { 0 }
}

// A byte of the item, or 0 behind it.
fn within(b: u8, i: u8, n: u8) -> u8
    ensures { Bounded b i n result }
{
    b.min(if_below(i, n))
}

// No byte of the first n, but for the initial one, is above the answer. The loop has no way out, so the compiler makes wide steps of it.
fn top(bytes: &[u8], at: usize, n: u8) -> u8
    requires { at + 33 ≤ length bytes.now }
    ensures { Topped bytes.now at n 33 result }
{
    let mut most: u8 = 0;
    for i in 1..33 {
        most = most.max(within(bytes[at + i as usize], i, n));
    }
    most
}

// The bytes of a string that is a leaf, 0 for other leaves.
pub fn leaf_content(initial: u8) -> u8
    ensures { LeafContent initial result }
{
    (initial % 32).min(if_same(initial / 64, 1))
}

// Whether a block stands behind the byte at a place.
fn has_block(bytes: &[u8], at: usize) -> bool
    ensures { Blocked bytes.now at result }
{
    BLOCK <= bytes.len() && at <= bytes.len() - BLOCK
}

// The size of the leaf at a place, NO_LEAF where there is none.
pub fn leaf_at(bytes: &[u8], at: usize) -> u8
    ensures { LeafAt bytes.now at result }
{
    if has_block(bytes, at) {
        leaf_size(bytes[at])
    } else {
        NO_LEAF
    }
}

// Whether the leaf of n bytes at a place is seen to be right: a text must be ASCII.
pub fn is_right(bytes: &[u8], at: usize, n: u8) -> bool
    ensures { Right bytes.now at n result }
{
    if !has_block(bytes, at) {
        return false;
    }
    let text = n.min(if_same(bytes[at] / 32, 3));
    n.max(top(bytes, at, text)) < 0x80
}
