//! Unites words that the bits of other words pick.
ghost use Rattle.std.specs.Prelude.{◌≡◌, ◌↔◌, ℕ, ◌+◌, ◌*◌, ◌^◌, ◌<◌, ◌≤◌, length};
ghost use Rattle.std.specs.Int.{bit_at};
ghost use Rattle.base.specs.Sets.{Has};
ghost use Rattle.base_bits.specs.Words.{bit, IsPicked, IsPickedByBoth, IsPickedByList};

use crate::words;

/// The union of those of the words from a place on whose turn is a bit that is set.
fn picked(words: &[u64], from: usize, bits: u64) -> u64
    requires { (p : ℕ) → bit_at bits p ≡ 1 → from + p < length words.now }
    ensures { (q : ℕ) → (bit_at result q ≡ 1) ↔ IsPicked words.now from bits q }
{
    let mut all = 0;
    let mut left = bits;
    while left != 0 {
        all |= words[from + left.trailing_zeros() as usize];
        left &= left - 1;
    }
    all
}

/// The union of those of the words from a place on whose turn is a number that two sets have in common.
pub(crate) fn picked_by_both(words: &[u64], from: usize, a: &[u64], b: &[u64]) -> u64
    requires length { length a.now ≡ length b.now }
    requires within { (i : ℕ) → bit a.now i ≡ 1 → from + i < length words.now }
    requires fits { from + 64 * length a.now ≤ 2 ^ 64 }
    ensures { (q : ℕ) → (bit_at result q ≡ 1) ↔ IsPickedByBoth words.now from a.now b.now q }
{
    let mut all = 0;
    for k in 0..a.len() {
        all |= picked(words, from + 64 * k, a[k] & b[k]);
    }
    all
}

/// The union of those of the words from a place on whose turn is a number of a list that a set has too.
pub(crate) fn picked_by_list(words: &[u64], from: usize, list: &[u16], set: &[u64]) -> u64
    requires within { (i : ℕ) → Has i list.now → from + i < length words.now }
    requires known { (i : ℕ) → Has i list.now → i < 64 * length set.now }
    ensures { (q : ℕ) → (bit_at result q ≡ 1) ↔ IsPickedByList words.now from list.now set.now q }
{
    let mut all = 0;
    for k in 0..list.len() {
        let i = list[k] as usize;
        // The word is read before the test, so that no branch is guessed.
        let word = words[from + i];
        if words::has(set, i) {
            all |= word;
        }
    }
    all
}
