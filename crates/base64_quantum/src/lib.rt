// Up to four letters of base64 text, a quantum of RFC 4648: how many bytes they make, and which.
#![tactic(auto, unfolding(crate::specs::QuantumAnswers::all_sextets, crate::specs::QuantumAnswers::first_byte, crate::specs::QuantumAnswers::second_of, crate::specs::QuantumAnswers::third_of, crate::specs::QuantumAnswers::full_size, crate::specs::QuantumAnswers::last_two_size, crate::specs::QuantumAnswers::last_three_size, crate::specs::QuantumAnswers::last_four_size))]

ghost use Rattle.std.specs.Prelude.{◌≡◌};
ghost use Rattle.std.specs.Option.{unwrap_or};
ghost use Rattle.base64_quantum.specs.QuantumAnswers.{all_sextets, IsLast, first_byte, second_of, third_of, Last, last_two_size, last_three_size, last_four_size, full_size};

// The number of `=`, above those of the 64 letters.
pub const PADDING: u8 = 64;

// More bytes than letters make: they may not stand so.
pub const WRONG: usize = 4;

// Up to four letters, and the place behind them.
#[derive(Clone, Copy)]
pub struct Group {
    pub count: u8,
    pub a: u8,
    pub b: u8,
    pub c: u8,
    pub d: u8,
    pub next: usize,
}

fn all_sextets(g: Group) -> bool
    ensures { result ≡ all_sextets g }
{
    g.a <= 63 && g.b <= 63 && g.c <= 63 && g.d <= 63
}

// Whether letters are the last of a text or stand wrongly, being no four with values.
pub fn is_last(g: Group) -> bool
    ensures { IsLast g result }
{
    g.count < 4 || !all_sextets(g)
}

// How many bytes four letters with others behind them make.
fn full_size(g: Group) -> Option<usize>
    ensures { unwrap_or result 4 ≡ full_size g }
{
    if all_sextets(g) { Some(3) } else { None }
}

pub fn first_byte(g: Group) -> u8
    ensures { result ≡ first_byte g }
{
    g.a % 64 * 4 + g.b % 64 / 16
}

pub fn second_byte(g: Group) -> u8
    ensures { result ≡ second_of g }
{
    g.b % 16 * 16 + g.c % 64 / 4
}

pub fn third_byte(g: Group) -> u8
    ensures { result ≡ third_of g }
{
    g.c % 4 * 64 + g.d % 64
}

// How many bytes two letters at the end make.
fn last_two(a: u8, b: u8) -> Option<usize>
    ensures { unwrap_or result 4 ≡ last_two_size a b }
{
    if a <= 63 && b <= 63 && b % 16 == 0 {
        return Some(1);
    }
    None
}

fn last_three(a: u8, b: u8, c: u8) -> Option<usize>
    ensures { unwrap_or result 4 ≡ last_three_size a b c }
{
    if a <= 63 && b <= 63 && c <= 63 && c % 4 == 0 {
        return Some(2);
    }
    None
}

// Four letters at the end, the last of them perhaps `=`.
fn last_four(g: Group) -> Option<usize>
    ensures { unwrap_or result 4 ≡ last_four_size g }
{
    if g.d != PADDING {
        return full_size(g);
    }
    if g.c == PADDING {
        return last_two(g.a, g.b);
    }
    last_three(g.a, g.b, g.c)
}

pub fn last_size(g: Group) -> usize
    ensures { Last g result }
{
    let size = match g.count {
        0 => Some(0),
        1 => None,
        2 => last_two(g.a, g.b),
        3 => last_three(g.a, g.b, g.c),
        _ => last_four(g),
    };
    size.unwrap_or(WRONG)
}
