// Groups of base64 text: up to four letters, whatever blanks stand between; the last of a text; their bytes, written.
ghost use Rattle.std.specs.Prelude.{◌≡◌, take};
ghost use Rattle.literal_body.specs.LiteralAnswers.{Put};
ghost use Rattle.literal_body.specs.LiteralReading.{Within};
ghost use Rattle.base64_quantum.specs.QuantumAnswers.{base64_bytes};
ghost use Rattle.base64_body.specs.GroupAnswers.{Blanks, Letters, Ending};

use base64_letter::letter_number::sextet_value;
use base64_quantum::{Group, WRONG, first_byte, last_size, second_byte, third_byte};
use literal_body::put;
use scanning::class::is_blank;

fn past_blanks(text: &[u8], from: usize, stop: usize) -> usize
    requires { Within text.now from stop }
    ensures { Blanks text.now stop from result }
{
    for at in from..stop {
        if !is_blank(text[at]) {
            return at;
        }
    }
    stop
}

fn grouped(count: u8, a: u8, b: u8, c: u8, d: u8, next: usize) -> Group
    ensures { result ≡ record { count = count; a = a; b = b; c = c; d = d; next = next } }
{
    Group {
        count,
        a,
        b,
        c,
        d,
        next,
    }
}

// The next four letters, whatever blanks stand between; fewer where the text ends.
pub(crate) fn letters(text: &[u8], from: usize, stop: usize) -> Group
    requires { Within text.now from stop }
    ensures { Letters text.now stop from result }
{
    let i = past_blanks(text, from, stop);
    if stop <= i {
        return grouped(0, 0, 0, 0, 0, i);
    }
    let a = sextet_value(text[i]);
    let j = past_blanks(text, i + 1, stop);
    if stop <= j {
        return grouped(1, a, 0, 0, 0, j);
    }
    let b = sextet_value(text[j]);
    let k = past_blanks(text, j + 1, stop);
    if stop <= k {
        return grouped(2, a, b, 0, 0, k);
    }
    let c = sextet_value(text[k]);
    let l = past_blanks(text, k + 1, stop);
    if stop <= l {
        return grouped(3, a, b, c, 0, l);
    }
    let d = sextet_value(text[l]);
    grouped(4, a, b, c, d, l + 1)
}

// Writes the first bytes of a group.
pub(crate) fn put_bytes(out: &mut [u8], p: usize, g: Group, n: usize) -> usize
    ensures { Put out.old out.new p result (take n (base64_bytes g)) }
{
    if n == 0 {
        return p;
    }
    let q = put(out, p, first_byte(g));
    if n == 1 {
        return q;
    }
    let r = put(out, q, second_byte(g));
    if n == 2 {
        return r;
    }
    put(out, r, third_byte(g))
}

// How many bytes the last letters make, if only blanks follow them.
pub(crate) fn ending_size(text: &[u8], g: Group, stop: usize) -> Option<usize>
    requires { Within text.now g.next stop }
    ensures { Ending text.now stop g result }
{
    if past_blanks(text, g.next, stop) < stop {
        return None;
    }
    let n = last_size(g);
    if n < WRONG { Some(n) } else { None }
}
