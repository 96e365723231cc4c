// Typed arrays (RFC 8746): the items that a tag may stand before.
#![tactic(auto)]

ghost use Rattle.std.specs.Prelude.{◌≡◌};
ghost use Rattle.typed_array.specs.TypedArrayAnswers.{may_tag_by, ElementSize};

// The size of the elements (section 2.1).
fn element_size(number: u64) -> usize
    ensures { ElementSize number result }
{
    let power = number / 16 % 2 + number % 4;
    match power {
        0 => 1,
        1 => 2,
        2 => 4,
        3 => 8,
        _ => 16,
    }
}

// Whether a tag may stand before an item: `bytes`, whether it is a byte string, and its `length` if it is one.
pub fn may_tag(number: u64, bytes: bool, length: usize) -> bool
    ensures { result ≡ may_tag_by number bytes length }
{
    match number {
        76 => false,
        64..=87 => bytes && length % element_size(number) == 0,
        _ => true,
    }
}
