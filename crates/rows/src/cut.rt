// Cuts a line into its fields, and reads the numbers in them.
ghost use Rattle.std.specs.Prelude.{◌≤◌, length};

// The first place from `from` on where a byte stands, or the length.
pub fn find(s: &[u8], from: usize, byte: u8) -> usize
    requires { from ≤ length s.now }
    ensures { (from ≤ result) × (result ≤ length s.now) }
{
    s[from..]
        .iter()
        .position(|b| *b == byte)
        .map_or(s.len(), |n| from + n)
}

// The items from one place up to another; none where these are no places of it.
pub fn part<T>(s: &[T], from: usize, to: usize) -> &[T] {
    s.get(from..to).unwrap_or(&[])
}

// The field number k; empty where there is none, and then nothing that can be read.
pub fn field(line: &[u8], k: usize) -> &[u8] {
    line.split(|b| *b == b'\t').nth(k).unwrap_or(&[])
}

// How many pieces a byte cuts bytes into.
pub fn pieces(s: &[u8], byte: u8) -> usize
    ensures { 1 ≤ result }
{
    s.iter().filter(|b| **b == byte).count() + 1
}

// A number with one more decimal digit.
fn with_digit(v: usize, b: u8) -> Option<usize> {
    match b {
        b'0'..=b'9' if v < 99999 => Some(v * 10 + (b - b'0') as usize),
        _ => None,
    }
}

// A decimal number.
pub fn number(s: &[u8]) -> Option<usize> {
    if s.is_empty() {
        return None;
    }
    let mut v = 0;
    for b in s {
        v = with_digit(v, *b)?;
    }
    Some(v)
}
