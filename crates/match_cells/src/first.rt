//! The first cell: all values are below each operand.
ghost use Rattle.std.specs.Prelude.{◌≡◌, ◌≢◌, ◌↔◌, ◌⊎◌, ℕ, ◌+◌, ◌*◌, ◌^◌, ◌<◌, length, slice_index, slice_index_or};
ghost use Rattle.base_bits.specs.Words.{bit};
ghost use Rattle.match_cells.specs.Asks.{missed_below, own};
ghost use Rattle.match_cells.specs.Cells.{lost_in, asked, total};

use crate::ask::Ask;

/// Counts the asks of an operand that a value below it doesn't meet.
fn count_one(lost: &mut [u32], asks: &[Ask])
    requires known { (d : _) (i : ℕ) → i < length asks.now → (slice_index_or asks.now i d).id < length lost.old }
    requires fits { (k : ℕ) → slice_index lost.old k + length asks.now < 2 ^ 32 }
    ensures length { length lost.new ≡ length lost.old }
    ensures counts { (k : ℕ) → slice_index lost.new k ≡ slice_index lost.old k + missed_below k asks.now }
{
    for i in 0..asks.len() {
        let ask = asks[i];
        if !ask.below {
            lost[ask.id as usize] += 1;
        }
    }
}

/// Puts a number into a set.
#[tactic(auto, unfolding(base_bits::specs::Words::bit))]
#[inline]
fn put(words: &mut [u64], k: usize)
    requires { k < 64 * length words.old }
    ensures length { length words.new ≡ length words.old }
    ensures there { bit words.new k ≡ 1 }
    ensures others { (i : ℕ) → i ≢ k → bit words.new i ≡ bit words.old i }
{
    words[k / 64] |= 1 << (k % 64) as u32;
}

/// Puts the filters of an operand's asks in of which nothing is missed.
fn put_one(words: &mut [u64], lost: &[u32], asks: &[Ask])
    requires known { (d : _) (i : ℕ) → i < length asks.now → (slice_index_or asks.now i d).id < length lost.now }
    requires wide { length lost.now ≡ 64 * length words.old }
    ensures length { length words.new ≡ length words.old }
    ensures bits { (k : ℕ) → (bit words.new k ≡ 1) ↔ (((0 < own k asks.now) × (slice_index lost.now k ≡ 0)) ⊎ (bit words.old k ≡ 1)) }
{
    for i in 0..asks.len() {
        let k = asks[i].id as usize;
        if lost[k] == 0 {
            put(words, k);
        }
    }
}

/// Counts the asks of all operands that a value below them doesn't meet.
pub(crate) fn count_all(lost: &mut [u32], groups: &[Vec<Ask>])
    requires known { (d : _) (e : _) (c i : ℕ) → c < length groups.now → i < length (slice_index_or groups.now c d).items
        → (slice_index_or (slice_index_or groups.now c d).items i e).id < length lost.old }
    requires few { total groups.now < 2 ^ 31 }
    requires zero { (k : ℕ) → slice_index lost.old k ≡ 0 }
    ensures length { length lost.new ≡ length lost.old }
    ensures counts { (k : ℕ) → slice_index lost.new k ≡ lost_in k groups.now 0 }
{
    for c in 0..groups.len() {
        count_one(lost, &groups[c]);
    }
}

/// Puts the filters of all asks in of which nothing is missed.
pub(crate) fn put_all(words: &mut [u64], lost: &[u32], groups: &[Vec<Ask>])
    requires known { (d : _) (e : _) (c i : ℕ) → c < length groups.now → i < length (slice_index_or groups.now c d).items
        → (slice_index_or (slice_index_or groups.now c d).items i e).id < length lost.now }
    requires wide { length lost.now ≡ 64 * length words.old }
    requires none { (k : ℕ) → bit words.old k ≡ 0 }
    ensures length { length words.new ≡ length words.old }
    ensures bits { (k : ℕ) → (bit words.new k ≡ 1) ↔ ((0 < asked k groups.now) × (slice_index lost.now k ≡ 0)) }
{
    for c in 0..groups.len() {
        put_one(words, lost, &groups[c]);
    }
}
