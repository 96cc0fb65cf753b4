//! Finds the place of a key in a line.
ghost use Rattle.std.specs.Prelude.{◌≡◌, ◌<◌, ◌≤◌, true, false, ℕ, length, slice_index_or};
ghost use Rattle.std.specs.Ordering.{is_lt, is_gt};
ghost use Rattle.match_index.specs.Lines.{AreSorted};

use crate::key::{LineKey, Sought};
use std::cmp::Ordering;

/// Whether a key with its id comes before another key and id: by the key, and then by the id, which is read only then.
#[inline]
fn is_before<K: LineKey, Q: Sought<K>>(first: &K, its: &u32, key: Q, id: u32) -> bool
    ensures before { result ≡ true → is_gt (K.order first.now (Q.meant key)) ≡ false }
    ensures behind { result ≡ false → is_lt (K.order first.now (Q.meant key)) ≡ false }
{
    match key.against(first) {
        Ordering::Less => true,
        Ordering::Equal => *its < id,
        Ordering::Greater => false,
    }
}

/// How many keys come, with their ids, before a key and an id.
pub(crate) fn rank<K: LineKey, Q: Sought<K>>(keys: &[K], ids: &[u32], key: Q, id: u32) -> usize
    requires sorted { AreSorted K.order keys.now }
    requires paired { length keys.now ≡ length ids.now }
    ensures within { result ≤ length keys.now }
    ensures before { (d : _) (k : ℕ) → k < result → is_gt (K.order (slice_index_or keys.now k d) (Q.meant key)) ≡ false }
    ensures behind { (d : _) (k : ℕ) → result ≤ k → k < length keys.now → is_lt (K.order (slice_index_or keys.now k d) (Q.meant key)) ≡ false }
{
    let mut low = 0;
    let mut high = keys.len();
    while low < high {
        let middle = low + (high - low) / 2;
        if is_before(&keys[middle], &ids[middle], key, id) {
            low = middle + 1;
        } else {
            high = middle;
        }
    }
    low
}

/// How many keys are less. What is left is halved in each step whichever way the key goes, so that the step is a choice of a
/// number and no branch.
pub fn below<K: LineKey, Q: Sought<K>>(keys: &[K], key: Q) -> usize
    requires { AreSorted K.order keys.now }
    ensures within { result ≤ length keys.now }
    ensures before { (d : _) (k : ℕ) → k < result → is_lt (K.order (slice_index_or keys.now k d) (Q.meant key)) ≡ true }
    ensures behind { (d : _) (k : ℕ) → result ≤ k → k < length keys.now → is_lt (K.order (slice_index_or keys.now k d) (Q.meant key)) ≡ false }
{
    if keys.is_empty() {
        return 0;
    }
    let mut low = 0;
    let mut left = keys.len();
    while left > 1 {
        let half = left / 2;
        if key.against(&keys[low + half]).is_lt() {
            low += half;
        }
        left -= half;
    }
    if key.against(&keys[low]).is_lt() {
        low + 1
    } else {
        low
    }
}

/// How many keys are not greater. The first ones are known to be so.
pub(crate) fn upto<K: LineKey, Q: Sought<K>>(keys: &[K], first: usize, key: Q) -> usize
    requires sorted { AreSorted K.order keys.now }
    requires within { first ≤ length keys.now }
    requires known { (d : _) (k : ℕ) → k < first → is_gt (K.order (slice_index_or keys.now k d) (Q.meant key)) ≡ false }
    ensures within { (first ≤ result) × (result ≤ length keys.now) }
    ensures before { (d : _) (k : ℕ) → k < result → is_gt (K.order (slice_index_or keys.now k d) (Q.meant key)) ≡ false }
    ensures behind { (d : _) (k : ℕ) → result ≤ k → k < length keys.now → is_gt (K.order (slice_index_or keys.now k d) (Q.meant key)) ≡ true }
{
    // Mostly no key is equal, and then the next one is greater.
    if first == keys.len() {
        return first;
    }
    if key.against(&keys[first]).is_gt() {
        return first;
    }
    let mut low = first;
    let mut high = keys.len();
    while low < high {
        let middle = low + (high - low) / 2;
        if key.against(&keys[middle]).is_gt() {
            high = middle;
        } else {
            low = middle + 1;
        }
    }
    low
}
