//! Counts one number once more.
ghost use Rattle.std.specs.Prelude.{◌≡◌, ◌≢◌, ℕ, ◌+◌, ◌*◌, ◌%◌, ◌<◌, length};
ghost use Rattle.match_cells.specs.Counts.{goal_at};

use crate::counts::Counts;

/// Counts one number once more; 32 is nought again.
pub fn count_one(counts: &mut [Counts], k: usize)
    requires { k < 64 * length counts.old }
    ensures length { length counts.new ≡ length counts.old }
    ensures more { goal_at counts.new k ≡ (goal_at counts.old k + 1) % 32 }
    ensures others { (i : ℕ) → i ≢ k → goal_at counts.new i ≡ goal_at counts.old i }
{
    counts[k / 64] = counts[k / 64].with(1 << (k % 64) as u32);
}
