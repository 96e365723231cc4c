// Amounts: digits of a text, any number of them, and the number that they make, which may be too large.
#![tactic(auto)]

ghost use Rattle.std.specs.Prelude.{◌≡◌, ◌+◌, ◌*◌, ◌≤◌, leb, drop};
ghost use Rattle.cbor.specs.Widths.{w8, limit};
ghost use Rattle.notation.specs.Numbers.{makes_float};
ghost use Rattle.notation.specs.Reading.{marked};
ghost use Rattle.literal_body.specs.LiteralAnswers.{digit_number};
ghost use Rattle.amounts.specs.AmountAnswers.{Base, bound64, Grown, float_at, ScansDigits, Counted};

use literal_body::hex_value;

// A number: value, or 2^64 + value if over, which is then 0 or 1, and 1 stands for all that are larger.
#[derive(Clone, Copy)]
pub struct Amount {
    pub value: u64,
    pub over: bool,
}

#[derive(Drop)]
pub struct Digits {
    pub amount: Amount,
    pub next: usize,
}

// The value of a digit, hexadecimal ones in either case, or NO_DIGIT.
pub fn digit_value(b: u8) -> u64
    ensures { result ≡ digit_number b }
{
    hex_value(b) as u64
}

// The largest number that is in 64 bits when it is multiplied by the radix: stored for each radix, so that the test of the limit divides nothing.
#[tactic(auto, unfolding(crate::specs::AmountAnswers::bound64, cbor::specs::Widths::limit))]
fn bound(radix: u64) -> u64
    requires le_radix { 2 ≤ radix }
    requires radix_bound { radix ≤ 16 }
    ensures { result ≡ bound64 radix }
{
    match radix {
        2 => 0x7fff_ffff_ffff_ffff,
        3 => 0x5555_5555_5555_5555,
        4 => 0x3fff_ffff_ffff_ffff,
        5 => 0x3333_3333_3333_3333,
        6 => 0x2aaa_aaaa_aaaa_aaaa,
        7 => 0x2492_4924_9249_2492,
        8 => 0x1fff_ffff_ffff_ffff,
        9 => 0x1c71_c71c_71c7_1c71,
        10 => 0x1999_9999_9999_9999,
        11 => 0x1745_d174_5d17_45d1,
        12 => 0x1555_5555_5555_5555,
        13 => 0x13b1_3b13_b13b_13b1,
        14 => 0x1249_2492_4924_9249,
        15 => 0x1111_1111_1111_1111,
        16 => 0x0fff_ffff_ffff_ffff,
        _ => 0,
    }
}

// Whether a number with a digit more is in 64 bits: the one test of the limit.
fn fits(value: u64, radix: u64, d: u64) -> bool
    requires { Base radix d }
    ensures { result ≡ leb (value * radix + d) (limit w8) }
{
    value <= bound(radix) && d <= u64::MAX - value * radix
}

// Whether it is at most 2^64.
fn nearly(value: u64, radix: u64, d: u64) -> bool
    requires { Base radix d }
    ensures { result ≡ leb (value * radix + d) 0x1_0000_0000_0000_0000 }
{
    if 0 < d {
        return fits(value, radix, d - 1);
    }
    value == 0 || fits(value - 1, radix, radix - 1)
}

fn grow(a: Amount, radix: u64, d: u64) -> Amount
    requires { Base radix d }
    ensures { Grown a radix d result }
{
    let over = true;
    if a.over {
        return Amount { value: 1, over };
    }
    if fits(a.value, radix, d) {
        return Amount {
            value: a.value * radix + d,
            over: false,
        };
    }
    if nearly(a.value, radix, d) {
        return Amount { value: 0, over };
    }
    Amount { value: 1, over }
}

// With a number up to this one, a digit more is in 64 bits in every radix.
const SURE: u64 = 0x0fff_ffff_ffff_ffff;

// A digit more; nearly all numbers need no test of the limit.
fn with_digit(a: Amount, radix: u64, d: u64) -> Amount
    requires { Base radix d }
    ensures { Grown a radix d result }
{
    if SURE < a.value || a.over {
        return grow(a, radix, d);
    }
    Amount {
        value: a.value * radix + d,
        over: false,
    }
}

// The digits from a place on, behind those that make `first`.
pub fn count_digits(text: &[u8], from: usize, radix: u64, first: u64) -> Digits
    requires { ScansDigits text.now from radix first }
    ensures { Counted text.now from radix first result }
{
    let mut amount = Amount {
        value: first,
        over: false,
    };
    for next in from..text.len() {
        let d = digit_value(text[next]);
        if radix <= d {
            return Digits { amount, next };
        }
        amount = with_digit(amount, radix, d);
    }
    Digits {
        amount,
        next: text.len(),
    }
}

fn makes_float(radix: u64, b: u8) -> bool
    ensures { result ≡ makes_float radix b }
{
    match radix {
        10 => matches!(b, b'.' | b'e' | b'E'),
        16 => matches!(b, b'.' | b'p' | b'P'),
        _ => false,
    }
}

// Whether what stands at a place makes a float of the digits before it.
pub fn floats(text: &[u8], at: usize, radix: u64) -> bool
    ensures { result ≡ float_at radix (drop at (marked text.now)) }
{
    at < text.len() && makes_float(radix, text[at])
}
