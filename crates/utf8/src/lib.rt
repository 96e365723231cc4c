// UTF-8 (RFC 3629): the place of the first bad sequence.
#![tactic(auto)]

ghost use Rattle.std.specs.Prelude.{◌≡◌, ◌∷◌, [], ◌+◌, ◌<◌, ◌≤◌, length, drop, slice_index};
ghost use Rattle.cbor.specs.Utf8.{◌to◌, follow, are_in, first_bad};
ghost use Rattle.cbor.specs.Sequences.{behind_first};
ghost use Rattle.utf8.specs.AsciiRuns.{Block, Ascii, AllAscii};
ghost use Rattle.utf8.specs.Measured.{Measured};

// Whether a byte stands at a place and is within bounds.
fn within(bytes: &[u8], at: usize, low: u8, high: u8) -> bool
    ensures { result ≡ are_in ((low to high) ∷ []) (drop at bytes.now) }
{
    at < bytes.len() && low <= bytes[at] && bytes[at] <= high
}

// The length N of the sequence at a place, if the bytes behind its first one are right: the second has bounds of its own.
fn whole<const N: usize>(bytes: &[u8], at: usize, mut low: u8, mut high: u8) -> Option<usize>
    requires inside { at < length bytes.now }
    requires some { 0 < N }
    requires first { follow (slice_index bytes.now at) ≡ behind_first N low high }
    ensures { Measured bytes.now at result }
{
    for i in 1..N {
        if !within(bytes, at + i, low, high) {
            return None;
        }
        low = 0x80;
        high = 0xbf;
    }
    Some(N)
}

// The length of the sequence at a place, if it is good. By tests alone: of a match on single bytes and ranges the compiler makes a
// jump by a table, and letters of three bytes then take more than twice as long.
fn sequence(bytes: &[u8], at: usize) -> Option<usize>
    requires { at < length bytes.now }
    ensures { Measured bytes.now at result }
{
    let b = bytes[at];
    if b < 0xe0 {
        if b < 0x80 {
            Some(1)
        } else if b < 0xc2 {
            None
        } else {
            whole::<2>(bytes, at, 0x80, 0xbf)
        }
    } else if b < 0xf0 {
        if b < 0xe1 {
            whole::<3>(bytes, at, 0xa0, 0xbf)
        } else if b < 0xed {
            whole::<3>(bytes, at, 0x80, 0xbf)
        } else if b < 0xee {
            whole::<3>(bytes, at, 0x80, 0x9f)
        } else {
            whole::<3>(bytes, at, 0x80, 0xbf)
        }
    } else if b < 0xf1 {
        whole::<4>(bytes, at, 0x90, 0xbf)
    } else if b < 0xf4 {
        whole::<4>(bytes, at, 0x80, 0xbf)
    } else if b < 0xf5 {
        whole::<4>(bytes, at, 0x80, 0x8f)
    } else {
        None
    }
}

// The first byte that is no ASCII.
const BEHIND_ASCII: u8 = 0x80;

// Blocks of ASCII are passed over whole, but only behind a few letters of it: between other letters a block would be looked at in vain.
const BLOCK: usize = 32;

const WIDE: usize = 128;

const FEW: usize = 16;

// Whether N bytes from a place on are ASCII. The loop has no way out, so the compiler makes wide steps of it.
fn is_ascii_block<const N: usize>(bytes: &[u8], at: usize) -> bool
    requires { at + N ≤ length bytes.now }
    ensures { Block bytes.now at N result }
{
    let mut most: u8 = 0;
    for i in 0..N {
        most = most.max(bytes[at + i]);
    }
    most < BEHIND_ASCII
}

// Past blocks of N bytes of ASCII.
fn past_blocks<const N: usize>(bytes: &[u8], from: usize) -> usize
    requires n { 0 < N }
    requires from { from ≤ length bytes.now }
    ensures { Ascii bytes.now from result }
{
    // A cursor: where it stops is the answer, so no range counts it.
    let mut end = from;
    while N <= bytes.len() - end && is_ascii_block::<N>(bytes, end) {
        end += N;
    }
    end
}

// Past wide blocks of ASCII, and then past others.
fn ascii_blocks(bytes: &[u8], from: usize) -> usize
    requires { from ≤ length bytes.now }
    ensures { Ascii bytes.now from result }
{
    let end = past_blocks::<WIDE>(bytes, from);
    past_blocks::<BLOCK>(bytes, end)
}

// Whether all is ASCII, as far as blocks show it. The last one may overlap the one before it.
fn is_ascii(bytes: &[u8]) -> bool
    ensures { AllAscii bytes.now result }
{
    if bytes.len() < BLOCK {
        return false;
    }
    let end = ascii_blocks(bytes, 0);
    bytes.len() - end < BLOCK && is_ascii_block::<BLOCK>(bytes, bytes.len() - BLOCK)
}

// Past ASCII, to where other letters may stand.
fn ascii_end(bytes: &[u8], from: usize) -> usize
    requires { from ≤ length bytes.now }
    ensures { Ascii bytes.now from result }
{
    for end in from..bytes.len() {
        if BEHIND_ASCII <= bytes[end] {
            return end;
        }
        if FEW <= end - from {
            return ascii_blocks(bytes, end);
        }
    }
    bytes.len()
}

// The place of the first bad sequence, the length where there is none.
pub fn first_bad(bytes: &[u8]) -> usize
    ensures { result ≡ first_bad bytes.now }
{
    if is_ascii(bytes) {
        return bytes.len();
    }
    let mut at = 0;
    while at < bytes.len() {
        if bytes[at] < BEHIND_ASCII {
            at = ascii_end(bytes, at + 1);
            continue;
        }
        let Some(size) = sequence(bytes, at) else {
            return at;
        };
        at += size;
    }
    at
}
