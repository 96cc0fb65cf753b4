//! Lists the members of a set of numbers, in rising order.
ghost use Rattle.std.specs.Prelude.{◌≡◌, ◌↔◌, ◌⊎◌, ℕ, ◌*◌, ◌^◌, ◌<◌, ◌≤◌, nat_lt, length, IfOk, OnOk};
ghost use Rattle.base.specs.Sets.{Has, IsRising};
ghost use Rattle.base_bits.specs.Words.{bit, IsInWord};

use base::NoMemory;
use std::alloc::Global;

/// How many numbers are in the set, so that their memory is taken at once.
pub(crate) fn count(words: &[u64]) -> usize {
    let mut count = 0usize;
    for k in 0..words.len() {
        count = count.saturating_add(words[k].count_ones() as usize);
    }
    count
}

/// Adds the numbers of the word at a place to those of the words before it.
pub(crate) fn list_word(list: &mut Vec<u32>, place: u32, word: u64) -> Result<(), NoMemory>
    requires place { place < 2 ^ 26 }
    requires rising { IsRising nat_lt list.old.items }
    requires before { (i : ℕ) → Has i list.old.items → i < place * 64 }
    ensures rising { OnOk result (IsRising nat_lt list.new.items) }
    ensures exact { OnOk result ((i : ℕ) → Has i list.new.items ↔ (Has i list.old.items ⊎ IsInWord place word i)) }
{
    let mut left = word;
    while left != 0 {
        list.push(place * 64 + left.trailing_zeros())?;
        left &= left - 1;
    }
    Ok(())
}

/// The numbers of the set, rising.
pub(crate) fn listed(alloc: Global, words: &[u64]) -> Result<Vec<u32>, NoMemory>
    requires { length words.now ≤ 2 ^ 26 }
    ensures rising { IfOk result (λ list. IsRising nat_lt list.items) }
    ensures exact { IfOk result (λ list. (i : ℕ) → Has i list.items ↔ (bit words.now i ≡ 1)) }
{
    let mut list = Vec::with_capacity(alloc, count(words))?;
    for k in 0..words.len() {
        list_word(&mut list, k as u32, words[k])?;
    }
    Ok(list)
}
