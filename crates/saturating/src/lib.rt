// A sum that stops at the largest number.
#![tactic(auto)]

ghost use Rattle.std.specs.Prelude.{◌≡◌};
ghost use Rattle.memory.specs.Sums.{capped};

pub fn sum(a: usize, b: usize) -> usize
    ensures { result ≡ capped a b }
{
    a.saturating_add(b)
}
