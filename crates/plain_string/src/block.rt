// Short strings by blocks: 32 bytes of the text are taken at once, however many of them are the string's. What follows writes over the rest.
ghost use Rattle.std.specs.Prelude.{◌≡◌, ◌+◌, ◌≤◌, length, take, drop};
ghost use Rattle.memory.specs.Buffer.{over};
ghost use Rattle.plain_string.specs.StringParts.{StringMade, HexMade};
ghost use Rattle.plain_string.specs.BlockParts.{HasRoom, Short, nibble_of, pair_block, Nibbles, ShortPart, ShortPairs};

const BLOCK: usize = 32;

// The initial byte of a byte string without bytes.
const BYTES: u8 = 0x40;

// Whether n bytes stand from a place on, up to a size.
fn has_room(size: usize, from: usize, n: usize) -> bool
    ensures { HasRoom size from n result }
{
    n <= size && from <= size - n
}

// Whether a string of n bytes is no longer than `most`, 32 bytes of the text stand from a place on, and there is room.
pub(crate) fn is_short(
    n: usize,
    most: usize,
    size: usize,
    from: usize,
    room: usize,
    pos: usize,
    wanted: usize,
) -> bool
    ensures { Short n most size from room pos wanted result }
{
    n <= most && has_room(size, from, BLOCK) && has_room(room, pos, wanted)
}

// A string of n bytes of the text, whose head is one byte.
pub(crate) fn put_short(text: &[u8], from: usize, n: usize, major: u8, buf: &mut [u8], pos: usize)
    requires short_part { ShortPart text.now from n buf.old pos }
    requires major_bound { major ≤ 7 }
    ensures { StringMade buf.old buf.new pos major (take n (drop from text.now)) (n + 1) }
{
    buffer::put(buf, pos, major * 32 + n as u8);
    buffer::copy_at(&text[from..], BLOCK, buf, pos + 1);
}

// The value of a hexadecimal digit; of any other byte some number below 16.
fn nibble(b: u8) -> u8
    ensures { result ≡ nibble_of b }
{
    (b % 16 + b / 64 * 9) % 16
}

fn nibbles(text: &[u8], from: usize) -> [u8; 32]
    requires { from + 32 ≤ length text.now }
    ensures { Nibbles text.now from result }
{
    let mut t = [0u8; 32];
    for i in 0..32 {
        t[i] = nibble(text[from + i]);
    }
    t
}

fn put_pairs(text: &[u8], from: usize, buf: &mut [u8], at: usize)
    requires from_in_bounds { from + 32 ≤ length text.now }
    requires at_in_bounds { at + 16 ≤ length buf.old }
    ensures { buf.new ≡ over buf.old at (pair_block text.now from 16) }
{
    let t = nibbles(text, from);
    for i in 0..16 {
        buf[at + i] = t[2 * i] * 16 + t[2 * i + 1];
    }
}

// A string of the n bytes that digits of the text make, whose head is one byte.
pub(crate) fn put_short_hex(text: &[u8], from: usize, n: usize, buf: &mut [u8], pos: usize)
    requires { ShortPairs text.now from n buf.old pos }
    ensures { HexMade text.now from n buf.old buf.new pos (n + 1) }
{
    buffer::put(buf, pos, BYTES + n as u8);
    put_pairs(text, from, buf, pos + 1);
}
