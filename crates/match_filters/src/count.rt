//! Finds what a notice's attributes satisfy, and counts it.
ghost use Rattle.std.specs.Prelude.{◌≡◌, ◌<◌, ◌≤◌, ◌%◌, ◌*◌, ℕ, cond, length, OnOk};
ghost use Rattle.match_index.specs.Pairs.{Same, tally};
ghost use Rattle.match_cells.specs.Counts.{goal_at, rows_with};
ghost use Rattle.match_filters.specs.Index.{ids_satisfied};
ghost use Rattle.match_filters.specs.Kinds.{all_uses};
ghost use Rattle.match_filters.specs.Rows.{AreLong, is_met};
ghost use Rattle.match_filters.specs.Hits.{hits_of};

use crate::index::Index;
use crate::rows::Rows;
use base::NoMemory;
use filter_types::Notice;
use match_cells::{Counts, count_one};

/// The numbers of the filters whose patterns of strs the notice satisfies, once a pattern.
pub(crate) fn find(index: &Index, notice: &Notice, found: &mut Vec<u32>) -> Result<(), NoMemory>
    ensures { OnOk result (Same found.new.items (ids_satisfied notice.now index.now.texts)) }
{
    found.clear();
    for (name, value) in notice.attributes() {
        index.hits(name, value, found)?;
    }
    Ok(())
}

/// A row for each part that an attribute of the notice meets.
pub(crate) fn gather(
    index: &Index,
    notice: &Notice,
    span: usize,
    rows: &mut Rows,
) -> Result<(), NoMemory>
    ensures long { OnOk result (AreLong span rows.new) }
    ensures counts { OnOk result ((k : ℕ) → k < 64 * span → rows_with rows.new k ≡ tally (λ a. is_met a (all_uses index.now) k) notice.now) }
{
    rows.clear();
    for (name, value) in notice.attributes() {
        index.read(name, value, span, rows)?;
    }
    Ok(())
}

/// Counts each number that was found.
fn count_all(counts: &mut [Counts], found: &[u32])
    requires known { (k : ℕ) → 64 * length counts.old ≤ k → hits_of k found.now ≡ 0 }
    requires none { (k : ℕ) → goal_at counts.old k ≡ 0 }
    ensures length { length counts.new ≡ length counts.old }
    ensures counts { (k : ℕ) → goal_at counts.new k ≡ hits_of k found.now % 32 }
{
    for id in found {
        count_one(counts, *id as usize);
    }
}

/// Sets so many counts to nought.
fn reset(counts: &mut Vec<Counts>, span: usize) -> Result<(), NoMemory>
    ensures length { OnOk result (length counts.new.items ≡ span) }
    ensures none { OnOk result ((k : ℕ) → goal_at counts.new.items k ≡ 0) }
{
    counts.clear();
    counts.resize(span, Counts::zero())?;
    Ok(())
}

/// How often each number was found.
pub(crate) fn count_found(
    counts: &mut Vec<Counts>,
    found: &[u32],
    span: usize,
) -> Result<(), NoMemory>
    requires known { (k : ℕ) → 64 * span ≤ k → hits_of k found.now ≡ 0 }
    ensures length { OnOk result (length counts.new.items ≡ span) }
    ensures counts { OnOk result ((k : ℕ) → goal_at counts.new.items k ≡ hits_of k found.now % 32) }
{
    reset(counts, span)?;
    count_all(counts, found);
    Ok(())
}
