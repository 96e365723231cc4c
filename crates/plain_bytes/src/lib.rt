// Bytes that stand for themselves between quotes, by blocks, and how many bytes more the others take.
#![tactic(auto)]

ghost use Rattle.std.specs.Prelude.{◌≡◌, ◌≤◌, length};
ghost use Rattle.plain_bytes.specs.Runs.{more_below, more_at, More, Plain, PlainRun};

// HOW MANY BYTES MORE

// So many bytes are looked at together.
pub const BLOCK: usize = 32;

#[tactic(auto, unfolding(crate::specs::Runs::more_below))]
fn more_below(b: u8) -> u8
    ensures { result ≡ more_below b }
{
    if b < b' ' { 5 } else { 0 }
}

#[tactic(auto, unfolding(crate::specs::Runs::more_at))]
fn more_at(b: u8, c: u8) -> u8
    ensures { result ≡ more_at b c }
{
    if b == c { 1 } else { 0 }
}

// How many bytes more than one a byte takes between quotes.
pub fn more(b: u8) -> u8
    ensures { More b result }
{
    more_below(b) + more_at(b, b'"') + more_at(b, b'\\')
}

// RUNS OF BYTES THAT STAND FOR THEMSELVES

// Whether each byte stands for itself between quotes. The loop has no way out, so the compiler makes wide steps of it.
pub fn is_plain(bytes: &[u8]) -> bool
    ensures { Plain bytes.now result }
{
    let mut most: u8 = 0;
    for &b in bytes {
        most = most.max(more(b));
    }
    most == 0
}

// Past whole blocks whose bytes stand for themselves. A cursor: the place is what is answered, and a loop over blocks would count it beside them.
pub fn plain_end(bytes: &[u8], from: usize) -> usize
    requires { from ≤ length bytes.now }
    ensures { PlainRun bytes.now from result }
{
    let mut end = from;
    while BLOCK <= bytes.len() - end {
        let next = end + BLOCK;
        if !is_plain(&bytes[end..next]) {
            return end;
        }
        end = next;
    }
    end
}
