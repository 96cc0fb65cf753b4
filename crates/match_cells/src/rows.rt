//! How many of some rows have each number.
ghost use Rattle.std.specs.Prelude.{◌≡◌, ◌↔◌, ℕ, ◌+◌, ◌*◌, ◌%◌, ◌<◌, length, slice_index, slice_index_or};
ghost use Rattle.std.specs.Int.{bit_at};
ghost use Rattle.std.specs.List.{sum_by};
ghost use Rattle.base_bits.specs.Words.{bit};
ghost use Rattle.match_cells.specs.Counts.{count_at, goal_at, rows_with};

use crate::counts::Counts;

/// Counts, with one more for each row that has the number.
fn sum_at(first: Counts, rows: &[Vec<u64>], i: usize) -> Counts
    requires { (d : _) (r : ℕ) → r < length rows.now → i < length (slice_index_or rows.now r d).items }
    ensures { (q : ℕ) → count_at result q ≡ (count_at first q + sum_by (λ row. bit_at (slice_index row.items i) q) rows.now) % 32 }
{
    let mut sum = first;
    let mut r = 0;
    while rows.len() - r >= 4 {
        sum = sum.with_four(rows[r][i], rows[r + 1][i], rows[r + 2][i], rows[r + 3][i]);
        r += 4;
    }
    for j in r..rows.len() {
        sum = sum.with(rows[j][i]);
    }
    sum
}

/// Puts those numbers into the set that are counted as often as the goals say: how often at first, and once more for each row
/// that has the number; 32 is as much as nought.
pub fn counted(first: &[Counts], rows: &[Vec<u64>], goals: &[Counts], into: &mut [u64])
    requires wide { (d : _) (r : ℕ) → r < length rows.now → length (slice_index_or rows.now r d).items ≡ length into.old }
    requires first { length first.now ≡ length into.old }
    requires goals { length goals.now ≡ length into.old }
    ensures length { length into.new ≡ length into.old }
    ensures bits { (k : ℕ) → k < 64 * length into.old
        → (bit into.new k ≡ 1) ↔ ((goal_at first.now k + rows_with rows.now k) % 32 ≡ goal_at goals.now k) }
{
    for i in 0..into.len() {
        into[i] = sum_at(first[i], rows, i).same(goals[i]);
    }
}
