// What is told of a leaf whose text was written at a glance, and the room that there has to be for both. What is written too much, the next text is written over.
#![tactic(auto)]

ghost use Rattle.std.specs.Prelude.{◌≡◌, [], ◌∷◌, ◌<◌, length};
ghost use Rattle.leaf_written.specs.Laying.{Laid};
ghost use Rattle.leaf_written.specs.LeafTexts.{HasBlock, HasSpace};

// An item ends before `end`, and its text before `pos`.
#[derive(Drop)]
pub struct Written {
    pub end: usize,
    pub pos: usize,
}

// The initial byte of a leaf and the block behind it; the longest text of a leaf, and two bytes before it.
const BLOCK: usize = 33;

const SPACE: usize = 82;

// `quick_leaf` has the same test of its own: neither of the two crates stands on the other, and a third one for a line is no plainer.
pub fn has_block(bytes: &[u8], at: usize) -> bool
    ensures { HasBlock bytes.now at result }
{
    BLOCK <= bytes.len() && at <= bytes.len() - BLOCK
}

pub fn has_space(out: &[u8], pos: usize) -> bool
    ensures { HasSpace out.now pos result }
{
    SPACE <= out.len() && pos <= out.len() - SPACE
}

// A letter.
pub fn put(v: u8, out: &mut [u8], pos: usize) -> usize
    requires { pos < length out.old }
    ensures { Laid out.old out.new pos (v ∷ []) result }
{
    out[pos] = v;
    pos + 1
}
