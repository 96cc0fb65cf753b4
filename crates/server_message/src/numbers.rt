//! What is asked of numbers that came from another thread.
ghost use Rattle.std.specs.Prelude.{◌≡◌, ◌<◌, ℕ, false, nat_lt, IsTrue};
ghost use Rattle.base.specs.Sets.{Has, IsRising};

/// Whether numbers rise.
fn are_rising(numbers: &[u32]) -> bool
    ensures yes { IsTrue result → IsRising nat_lt numbers.now }
    ensures no { result ≡ false → IsRising nat_lt numbers.now → ⊥ }
{
    for place in 1..numbers.len() {
        if numbers[place - 1] >= numbers[place] {
            return false;
        }
    }
    true
}

/// Whether all numbers are below a bound.
fn are_below(numbers: &[u32], bound: u32) -> bool
    ensures yes { IsTrue result → (i : ℕ) → Has i numbers.now → i < bound }
    ensures no { result ≡ false → ((i : ℕ) → Has i numbers.now → i < bound) → ⊥ }
{
    for number in numbers {
        if *number >= bound {
            return false;
        }
    }
    true
}

/// Whether numbers rise and are below a bound.
pub(crate) fn are_rising_below(numbers: &[u32], bound: u32) -> bool
    ensures rising { IsTrue result → IsRising nat_lt numbers.now }
    ensures below { IsTrue result → (i : ℕ) → Has i numbers.now → i < bound }
    ensures no { result ≡ false → IsRising nat_lt numbers.now → ((i : ℕ) → Has i numbers.now → i < bound) → ⊥ }
{
    if !are_rising(numbers) {
        return false;
    }
    are_below(numbers, bound)
}

/// Whether no number is in both lists.
pub(crate) fn are_apart(one: &[u32], other: &[u32]) -> bool
    ensures yes { IsTrue result → (i : ℕ) → Has i one.now → Has i other.now → ⊥ }
    ensures no { result ≡ false → ((i : ℕ) → Has i one.now → Has i other.now → ⊥) → ⊥ }
{
    for number in one {
        if other.contains(number) {
            return false;
        }
    }
    true
}
