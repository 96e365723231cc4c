// Decimal digits with no branch: each place of a number is written, and moved behind only where a digit stands before it or in it. A function for each count of
// places, and no loop over a table of powers: of a literal the compiler makes a product, and no division.
ghost use Rattle.std.specs.Prelude.{◌+◌, ◌≤◌, ◌<◌, length};
ghost use Rattle.leaf_written.specs.Laying.{Laid};
ghost use Rattle.leaf_integer.specs.Digits.{digit_of, tail_of};

// The last digit of a number.
fn units(n: u64, out: &mut [u8], pos: usize) -> usize
    requires { pos < length out.old }
    ensures { Laid out.old out.new pos (tail_of 0 n) result }
{
    out[pos] = b'0' + (n % 10) as u8;
    pos + 1
}

// A digit further up, of a number that ends with it; none where this is 0.
fn digit(q: u64, out: &mut [u8], pos: usize) -> usize
    requires { pos < length out.old }
    ensures laid { Laid out.old out.new pos (digit_of q) result }
    ensures upper_bound { result ≤ pos + 1 }
{
    out[pos] = b'0' + (q % 10) as u8;
    if q == 0 {
        return pos;
    }
    pos + 1
}

pub(crate) fn tens(n: u64, out: &mut [u8], pos: usize) -> usize
    requires { pos + 1 < length out.old }
    ensures { Laid out.old out.new pos (tail_of 1 n) result }
{
    let p = digit(n / 10, out, pos);
    units(n, out, p)
}

pub(crate) fn hundreds(n: u64, out: &mut [u8], pos: usize) -> usize
    requires { pos + 2 < length out.old }
    ensures { Laid out.old out.new pos (tail_of 2 n) result }
{
    let p = digit(n / 100, out, pos);
    tens(n, out, p)
}

pub(crate) fn ten_thousands(n: u64, out: &mut [u8], pos: usize) -> usize
    requires { pos + 4 < length out.old }
    ensures { Laid out.old out.new pos (tail_of 4 n) result }
{
    let p = digit(n / 10_000, out, pos);
    let q = digit(n / 1_000, out, p);
    hundreds(n, out, q)
}

fn ten_millions(n: u64, out: &mut [u8], pos: usize) -> usize
    requires { pos + 7 < length out.old }
    ensures { Laid out.old out.new pos (tail_of 7 n) result }
{
    let p = digit(n / 10_000_000, out, pos);
    let q = digit(n / 1_000_000, out, p);
    let e = digit(n / 100_000, out, q);
    ten_thousands(n, out, e)
}

pub(crate) fn billions(n: u64, out: &mut [u8], pos: usize) -> usize
    requires { pos + 9 < length out.old }
    ensures { Laid out.old out.new pos (tail_of 9 n) result }
{
    let p = digit(n / 1_000_000_000, out, pos);
    let q = digit(n / 100_000_000, out, p);
    ten_millions(n, out, q)
}
