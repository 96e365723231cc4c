// Decimal digits, up to seven of them by one word.
ghost use Rattle.std.specs.Prelude.{◌≡◌, ◌+◌, ◌<◌, ◌≤◌, length, slice_index};
ghost use Rattle.notation.specs.Numbers.{digit_value};
ghost use Rattle.numbers.specs.NumberAnswers.{DigitAt};
ghost use Rattle.decimals.specs.DigitParts.{Tally};
ghost use Rattle.decimals.specs.WordParts.{Wide, Eight, Small, joined, Marks, Clear, Raised};

use crate::{DigitRun, digit, digits};

// In each byte: the digit zero; what brings 10 to 0x80, and 9 not yet; that bit.
const ZEROS: u64 = 0x3030_3030_3030_3030;

const OVER: u64 = 0x7676_7676_7676_7676;

const HIGH: u64 = 0x8080_8080_8080_8080;

fn wide(b: u8) -> u64
    ensures { Wide b result }
{
    b as u64
}

// Eight bytes, the first one lowest. The compiler makes one load of them; of a sum it does not.
fn eight(text: &[u8], at: usize) -> u64
    requires { at + 8 ≤ length text.now }
    ensures { Eight text.now at result }
{
    wide(text[at])
        | wide(text[at + 1]) * 0x100
        | wide(text[at + 2]) * 0x1_0000
        | wide(text[at + 3]) * 0x100_0000
        | wide(text[at + 4]) * 0x1_0000_0000
        | wide(text[at + 5]) * 0x100_0000_0000
        | wide(text[at + 6]) * 0x1_0000_0000_0000
        | wide(text[at + 7]) * 0x100_0000_0000_0000
}

// The high bit of the first byte that is no value of a digit. What stands above it says nothing: the sum may have carried there.
fn marks(x: u64) -> u64
    ensures { Marks x result }
{
    (std::num::wrapping_add_u64(x, OVER) | x) & HIGH
}

// How many bytes are below the lowest bit.
fn clear(t: u64) -> u32
    ensures { Clear t result }
{
    u64::trailing_zeros(t) / 8
}

// The digits in the high bytes, with zeros before them.
fn raised(x: u64, n: u32) -> u64
    requires small { Small n x }
    requires n_nonzero { 0 < n }
    requires n_bound { n ≤ 8 }
    ensures { Raised x n result }
{
    x << (64 - n * 8)
}

// The number of eight digits: by twos, and these by their places.
fn number_of(s: u64) -> u64
    requires { Small 8 s }
    ensures { result ≡ joined 0 8 s }
{
    let y = s * 10 + s / 256;
    (y % 256) * 1_000_000
        + (y / 0x1_0000 % 256) * 10_000
        + (y / 0x1_0000_0000 % 256) * 100
        + (y / 0x1_0000_0000_0000 % 256)
}

fn one_by_one(text: &[u8], at: usize) -> DigitRun
    requires { DigitAt text.now at }
    ensures { Tally text.now (at + 1) (digit_value (slice_index text.now at)) result.end result.value }
{
    digits(text, at + 1, digit(text[at]))
}

// Decimal digits at a place where one stands: up to seven of them by one word, others one by one.
pub fn decimal(text: &[u8], at: usize) -> DigitRun
    requires { DigitAt text.now at }
    ensures { Tally text.now (at + 1) (digit_value (slice_index text.now at)) result.end result.value }
{
    if text.len() - at < 8 {
        return one_by_one(text, at);
    }
    let x = std::num::wrapping_sub_u64(eight(text, at), ZEROS);
    let t = marks(x);
    if t == 0 {
        return one_by_one(text, at);
    }
    let n = clear(t);
    if n == 0 {
        return one_by_one(text, at);
    }
    DigitRun {
        value: number_of(raised(x, n)),
        end: at + n as usize,
    }
}
