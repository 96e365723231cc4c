// Text into a buffer. Each function answers the place behind what it writes, also where that does not fit; a place stops at
// the largest number.
#![tactic(auto)]

ghost use Rattle.std.specs.Prelude.{[], ◌∷◌};
ghost use Rattle.text_output.specs.PrintParts.{Prints};

use saturating::sum;

pub fn put(out: &mut [u8], pos: usize, v: u8) -> usize
    ensures { Prints out.old out.new pos (v ∷ []) result }
{
    if pos < out.len() {
        out[pos] = v;
        return pos + 1;
    }
    sum(pos, 1)
}

pub fn put_all(text: &[u8], out: &mut [u8], pos: usize) -> usize
    ensures { Prints out.old out.new pos text.now result }
{
    let mut p = pos;
    for &b in text {
        p = put(out, p, b);
    }
    p
}
