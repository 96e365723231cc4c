// Words.
ghost use Rattle.std.specs.Prelude.{◌+◌, ◌≤◌, length};
ghost use Rattle.leaf_written.specs.Laying.{Laid};

// A word, whose letters are literals where it is called.
pub(crate) fn word(letters: &[u8], out: &mut [u8], pos: usize) -> usize
    requires { pos + length letters.now ≤ length out.old }
    ensures { Laid out.old out.new pos letters.now result }
{
    for (i, &b) in letters.iter().enumerate() {
        out[pos + i] = b;
    }
    pos + letters.len()
}
