// Runs of text: bytes of 20 hex and over, up to one of two that end them.
ghost use Rattle.std.specs.Prelude.{◌+◌, ◌≤◌, length};
ghost use Rattle.scanning.specs.TextRuns.{Stop, TextBlock, TextRun};

// The place of a byte if a run ends there, else 32.
fn stop_at(b: u8, x: u8, y: u8, i: u8) -> u8
    ensures { Stop x y b i result }
{
    if b < 0x20 || b == x || b == y { i } else { 32 }
}

// How many of 32 bytes are in a run, before the first that is not. The compiler makes wide steps of the loop, as it has no way out and
// its numbers are bytes. With the two sides of `min` exchanged it makes branches where x is y, and comments take nearly twice as long.
fn text_block(text: &[u8], at: usize, x: u8, y: u8) -> u8
    requires { at + 32 ≤ length text.now }
    ensures { TextBlock text.now x y at result }
{
    let mut first: u8 = 32;
    for i in 0..32u8 {
        first = stop_at(text[at + i as usize], x, y, i).min(first);
    }
    first
}

fn text_blocks(text: &[u8], from: usize, x: u8, y: u8) -> usize
    requires { from ≤ length text.now }
    ensures { TextRun text.now x y from result }
{
    // A cursor: where it stops is the answer, so no range counts it.
    let mut at = from;
    while 32 <= text.len() - at {
        let n = text_block(text, at, x, y);
        if n < 32 {
            return at + n as usize;
        }
        at += 32;
    }
    at
}

// Past bytes of 20 hex and over that are neither x nor y.
pub fn text_run(text: &[u8], from: usize, x: u8, y: u8) -> usize
    requires { from ≤ length text.now }
    ensures { TextRun text.now x y from result }
{
    for at in text_blocks(text, from, x, y)..text.len() {
        if stop_at(text[at], x, y, 0) == 0 {
            return at;
        }
    }
    text.len()
}
