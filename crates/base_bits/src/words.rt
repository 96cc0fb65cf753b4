//! Keeps sets of numbers as words of 64 bits each.
ghost use Rattle.std.specs.Prelude.{◌≡◌, ◌≢◌, ◌↔◌, ℕ, ◌+◌, ◌-◌, ◌*◌, ◌^◌, ◌<◌, ◌≤◌, ◌==◌, true, false, min, max, length, IsTrue, IfSome, IfNone, bit_and, slice_index};
ghost use Rattle.base_bits.specs.Words.{bit, HaveCommonWord};

/// Whether a number is in the set.
#[tactic(auto, unfolding(crate::specs::Words::bit))]
pub(crate) fn has(words: &[u64], i: usize) -> bool
    requires { i < 64 * length words.now }
    ensures { result ≡ (bit words.now i == 1) }
{
    words[i / 64] >> (i % 64) as u32 & 1 == 1
}

/// Puts a number in.
#[tactic(auto, unfolding(crate::specs::Words::bit))]
pub(crate) fn put(words: &mut [u64], i: usize)
    requires { i < 64 * length words.old }
    ensures length { length words.new ≡ length words.old }
    ensures there { bit words.new i ≡ 1 }
    ensures others { (k : ℕ) → k ≢ i → bit words.new k ≡ bit words.old k }
{
    words[i / 64] |= 1 << (i % 64) as u32;
}

/// Takes a number out.
#[tactic(auto, unfolding(crate::specs::Words::bit))]
pub(crate) fn take(words: &mut [u64], i: usize)
    requires { i < 64 * length words.old }
    ensures length { length words.new ≡ length words.old }
    ensures gone { bit words.new i ≡ 0 }
    ensures others { (k : ℕ) → k ≢ i → bit words.new k ≡ bit words.old k }
{
    words[i / 64] &= !(1 << (i % 64) as u32);
}

/// Takes all numbers out.
pub(crate) fn clear(words: &mut [u64])
    ensures length { length words.new ≡ length words.old }
    ensures bits { (k : ℕ) → bit words.new k ≡ 0 }
{
    for k in 0..words.len() {
        words[k] = 0;
    }
}

/// Makes the set the same as another one.
pub(crate) fn copy(into: &mut [u64], from: &[u64])
    requires { length from.now ≡ length into.old }
    ensures length { length into.new ≡ length into.old }
    ensures bits { (k : ℕ) → bit into.new k ≡ bit from.now k }
{
    for k in 0..into.len() {
        into[k] = from[k];
    }
}

/// Puts each number of another set in.
pub(crate) fn put_all(into: &mut [u64], from: &[u64])
    requires { length from.now ≡ length into.old }
    ensures length { length into.new ≡ length into.old }
    ensures bits { (k : ℕ) → bit into.new k ≡ max (bit into.old k) (bit from.now k) }
{
    for k in 0..into.len() {
        into[k] |= from[k];
    }
}

/// Takes each number of another set out.
pub(crate) fn take_all(into: &mut [u64], from: &[u64])
    requires { length from.now ≡ length into.old }
    ensures length { length into.new ≡ length into.old }
    ensures bits { (k : ℕ) → bit into.new k ≡ bit into.old k - bit from.now k }
{
    for k in 0..into.len() {
        into[k] &= !from[k];
    }
}

/// Keeps the numbers that are in another set too.
pub(crate) fn keep_all(into: &mut [u64], from: &[u64])
    requires { length from.now ≡ length into.old }
    ensures length { length into.new ≡ length into.old }
    ensures bits { (k : ℕ) → bit into.new k ≡ min (bit into.old k) (bit from.now k) }
{
    for k in 0..into.len() {
        into[k] &= from[k];
    }
}

/// What two sets have in common at four words, joined in one.
fn four(a: &[u64], b: &[u64], k: usize) -> u64
    requires a { k + 4 ≤ length a.now }
    requires b { k + 4 ≤ length b.now }
    ensures some { result ≢ 0 → HaveCommonWord a.now b.now }
    ensures none { result ≡ 0 → (j : ℕ) → k ≤ j → j < k + 4 → bit_and (slice_index a.now j) (slice_index b.now j) ≡ 0 }
{
    (a[k] & b[k]) | (a[k + 1] & b[k + 1]) | (a[k + 2] & b[k + 2]) | (a[k + 3] & b[k + 3])
}

/// Whether two sets have a number in common.
pub(crate) fn meet(a: &[u64], b: &[u64]) -> bool
    requires { length a.now ≡ length b.now }
    ensures some { result ≡ true → (i : ℕ) × (bit a.now i ≡ 1) × (bit b.now i ≡ 1) }
    ensures none { result ≡ false → (i : ℕ) → min (bit a.now i) (bit b.now i) ≡ 0 }
{
    let mut k = 0;
    while a.len() - k >= 4 {
        if four(a, b, k) != 0 {
            return true;
        }
        k += 4;
    }
    for j in k..a.len() {
        if a[j] & b[j] != 0 {
            return true;
        }
    }
    false
}

/// Whether two sets have the same numbers.
pub(crate) fn are_same(a: &[u64], b: &[u64]) -> bool
    requires { length a.now ≡ length b.now }
    ensures { IsTrue result ↔ ((i : ℕ) → bit a.now i ≡ bit b.now i) }
{
    a == b
}

/// The least number, from one on, that two sets have in common.
pub(crate) fn next_common(a: &[u64], b: &[u64], from: u32) -> Option<u32>
    requires length { length a.now ≡ length b.now }
    requires few { 64 * length a.now ≤ 2 ^ 32 }
    ensures some { IfSome result (λ i. (from ≤ i) × (bit a.now i ≡ 1) × (bit b.now i ≡ 1)) }
    ensures least { IfSome result (λ i. (k : ℕ) → from ≤ k → k < i → min (bit a.now k) (bit b.now k) ≡ 0) }
    ensures none { IfNone result ((k : ℕ) → from ≤ k → min (bit a.now k) (bit b.now k) ≡ 0) }
{
    let mut at = (from / 64) as usize;
    if at >= a.len() {
        return None;
    }
    let mut word = a[at] & b[at] & (u64::MAX << (from % 64));
    while word == 0 {
        at += 1;
        if at == a.len() {
            return None;
        }
        word = a[at] & b[at];
    }
    Some(at as u32 * 64 + word.trailing_zeros())
}
