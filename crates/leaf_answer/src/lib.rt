// What the readers of leaves answer.
#![tactic(auto)]

ghost use Rattle.std.specs.Prelude.{◌≡◌, false};

// What was found at a place: a leaf, the opening of a tag, what may be a leaf that is seldom written so, or nothing of these.
#[derive(Clone, Copy)]
pub enum Found {
    Leaf,
    Tag,
    Odd,
    Nothing,
}

// Where the text goes on. Of a leaf: how many bytes were made, whether it is a byte string, and then how long its content is. Of a tag: its
// number.
#[derive(Drop)]
pub struct LeafRead {
    pub found: Found,
    pub next: usize,
    pub size: usize,
    pub binary: bool,
    pub length: usize,
    pub number: u64,
}

pub fn nothing(at: usize) -> LeafRead
    ensures { result.found ≡ Found.Nothing }
{
    LeafRead {
        found: Found::Nothing,
        next: at,
        size: 0,
        binary: false,
        length: 0,
        number: 0,
    }
}

// What may be a leaf all the same.
pub fn odd(at: usize) -> LeafRead
    ensures { result.found ≡ Found.Odd }
{
    LeafRead {
        found: Found::Odd,
        next: at,
        size: 0,
        binary: false,
        length: 0,
        number: 0,
    }
}

pub fn leaf(next: usize, size: usize, binary: bool, length: usize) -> LeafRead
    ensures { result ≡ record { found = Found.Leaf; next = next; size = size; binary = binary; length = length; number = 0 } }
{
    LeafRead {
        found: Found::Leaf,
        next,
        size,
        binary,
        length,
        number: 0,
    }
}

pub fn opening(next: usize, number: u64) -> LeafRead
    ensures { result ≡ record { found = Found.Tag; next = next; size = 0; binary = false; length = 0; number = number } }
{
    LeafRead {
        found: Found::Tag,
        next,
        size: 0,
        binary: false,
        length: 0,
        number,
    }
}

// The same answer, made anew: one that is handed on whole is copied, and the copy waits for it.
pub fn again(r: LeafRead) -> LeafRead
    ensures { result ≡ r }
{
    let found = r.found;
    LeafRead {
        found,
        next: r.next,
        size: r.size,
        binary: r.binary,
        length: r.length,
        number: r.number,
    }
}
