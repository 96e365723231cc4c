// Decimal digits: where they end, what they make, and which may come first.
#![tactic(auto)]

pub mod eight;

ghost use Rattle.std.specs.Prelude.{◌≡◌, ◌<◌, ◌≤◌, true, length};
ghost use Rattle.notation.specs.Numbers.{is_digit};
ghost use Rattle.decimals.specs.DigitParts.{Worth, GoesOn, EndsAt, Tally, Leads, Behind, DigitThere};

// Behind a number below this one any digit more makes one of 64 bits.
const MOST: u64 = 1_844_674_407_370_955_160;

fn is_digit(b: u8) -> bool
    ensures { result ≡ is_digit 10 b }
{
    matches!(b, b'0'..=b'9')
}

fn digit(b: u8) -> u64
    requires { is_digit 10 b ≡ true }
    ensures { Worth b result }
{
    (b - b'0') as u64
}

// Whether a byte behind decimal digits makes them another token.
fn goes_on(b: u8) -> bool
    ensures { GoesOn b result }
{
    matches!(b, b'(' | b'.' | b'E' | b'_' | b'b' | b'e' | b'o' | b'x') || is_digit(b)
}

pub fn ends(text: &[u8], at: usize) -> bool
    requires { at ≤ length text.now }
    ensures { EndsAt text.now at result }
{
    text.len() <= at || !goes_on(text[at])
}

#[derive(Drop)]
pub struct DigitRun {
    pub value: u64,
    pub end: usize,
}

// DigitRun behind those that make `first`, as long as any digit may follow.
fn digits(text: &[u8], from: usize, first: u64) -> DigitRun
    requires from_in_bounds { from ≤ length text.now }
    requires first_bound { first ≤ 9 }
    ensures { Tally text.now from first result.end result.value }
{
    let mut value = first;
    for end in from..text.len() {
        let b = text[end];
        if !is_digit(b) || MOST <= value {
            return DigitRun { value, end };
        }
        value = value * 10 + digit(b);
    }
    DigitRun {
        value,
        end: text.len(),
    }
}

// Whether a first digit may stand before more digits or none, behind a minus or not.
pub fn leads(b: u8, minus: bool, more: bool) -> bool
    ensures { Leads b minus more result }
{
    b != b'0' || !minus && !more
}

pub fn behind_sign(at: usize, minus: bool) -> usize
    requires { at < 0xffff_ffff_ffff_ffff }
    ensures { Behind at minus result }
{
    if minus { at + 1 } else { at }
}

pub fn digit_at(text: &[u8], at: usize) -> bool
    ensures { DigitThere text.now at result }
{
    at < text.len() && is_digit(text[at])
}
