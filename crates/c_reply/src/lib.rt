// What reading, printing and correcting return in numbers, and what they write into `value`: a length, or the place of the refusal.
#![tactic(auto)]

ghost use Rattle.std.specs.Prelude.{◌≡◌, eqb, set};
ghost use Rattle.refusal.specs.RefusalKinds.{kind_number};
ghost use Rattle.c_reply.specs.Replies.{code, succeeds, length_in, answer_of};

use refusal::Refusal;

// Puts a number into a slice that reaches that far.
pub fn put(value: &mut [u64], i: usize, x: u64)
    ensures { value.new ≡ set value.old i x }
{
    if i < value.len() {
        value[i] = x;
    }
}

// The number of a refusal, and its place.
pub fn refused(e: Refusal, value: &mut [u64]) -> u8
    ensures value { result ≡ kind_number e.kind }
    ensures value_after { value.new ≡ set value.old 0 e.place }
{
    let place = e.place as u64;
    put(value, 0, place);
    let kind = e.kind;
    refusal::number(kind)
}

pub fn reply(a: Result<usize, Refusal>, value: &mut [u64]) -> u8
    ensures value { result ≡ code (answer_of a) }
    ensures result_value { eqb result 0 ≡ succeeds (answer_of a) }
    ensures value_after { value.new ≡ length_in value.old (answer_of a) }
{
    match a {
        Ok(n) => {
            let length = n as u64;
            put(value, 0, length);
            0
        }
        Err(e) => refused(e, value),
    }
}
