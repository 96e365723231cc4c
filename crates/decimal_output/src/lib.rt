// A number into a buffer, decimal.
#![tactic(auto)]

ghost use Rattle.std.specs.Prelude.{suc};
ghost use Rattle.notation.specs.Printing.{decimal_of};
ghost use Rattle.text_output.specs.PrintParts.{Prints};

use text_output::{put, put_all};

// A number, decimal, digit by digit: as far as the buffer reaches.
pub fn decimal(n: u64, out: &mut [u8], pos: usize) -> usize
    ensures { Prints out.old out.new pos (decimal_of n) result }
{
    if n < 10 {
        return put(out, pos, b'0' + n as u8);
    }
    let p = decimal(n / 10, out, pos);
    put(out, p, b'0' + (n % 10) as u8)
}

// The number after n, which may have 65 bits.
pub fn successor(n: u64, out: &mut [u8], pos: usize) -> usize
    ensures { Prints out.old out.new pos (decimal_of (suc n)) result }
{
    if n == 18446744073709551615 {
        return put_all(b"18446744073709551616", out, pos);
    }
    decimal(n + 1, out, pos)
}
