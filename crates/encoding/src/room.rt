// How much room is left for the head of a byte string before its content is read. It is a guess, by which nothing is decided but how
// often bytes are moved: the head of 256 bytes to 65,535 has three.
ghost use Rattle.std.specs.Prelude.{◌+◌, ◌≤◌, length};
ghost use Rattle.encoding.specs.ReadAnswers.{Roomed};

const ONE_BYTE: usize = 1;

const THREE_BYTES: usize = 3;

// Content of fewer than 256 bytes fits behind three bytes too where so many are left.
const AMPLE: usize = 300;

// Content that goes on for so long is not short.
const FAR: usize = 1024;

fn is_angle(b: u8) -> u8 {
    if b == b'>' {
        return 1;
    }
    0
}

// 1 if a `>` stands among the next 32 bytes, else 0. The compiler makes wide steps of the loop.
fn closes_soon(text: &[u8], at: usize) -> u8
    requires { at + 32 ≤ length text.now }
{
    let mut most: u8 = 0;
    for i in 0..32 {
        most = most.max(is_angle(text[at + i]));
    }
    most
}

// Behind `<<` at a place of the text, where the head is to stand at `pos` of a buffer of `end` bytes.
pub fn room_for(text: &[u8], at: usize, end: usize, pos: usize) -> usize
    ensures { Roomed pos end result }
{
    if end < AMPLE {
        return ONE_BYTE;
    }
    if end - AMPLE < pos {
        return ONE_BYTE;
    }
    if text.len() < FAR {
        return ONE_BYTE;
    }
    if text.len() - FAR < at {
        return ONE_BYTE;
    }
    if closes_soon(text, at) == 0 {
        return THREE_BYTES;
    }
    ONE_BYTE
}
