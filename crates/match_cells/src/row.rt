//! The filters that a value satisfies on one name and kind.
ghost use Rattle.std.specs.Prelude.{◌≡◌, ◌↔◌, ℕ, ◌+◌, ◌*◌, ◌^◌, ◌<◌, ◌≤◌, length, slice_index};
ghost use Rattle.base_bits.specs.Words.{bit};
ghost use Rattle.match_cells.specs.Cells.{asked, AreCells};
ghost use Rattle.match_cells.specs.Places.{AreRising, missed_by};

use crate::cells::Cells;
use crate::place::cell_of;
use match_index::{LineKey, Sought};

/// Sets the words to the filters that ask something at the operands and of which the value misses nothing.
pub fn read_row<K: LineKey, Q: Sought<K>>(cuts: &[K], cells: &Cells, x: Q, into: &mut [u64])
    requires rising { AreRising K.order cuts.now }
    requires few { length cuts.now < 2 ^ 63 }
    requires ends { length cells.now.ends ≡ 2 * length cuts.now + 1 }
    requires known { (e : ℕ) → e < length cells.now.ends → slice_index cells.now.ends e ≤ length cells.now.past.changes }
    requires wide { length into.old ≡ length cells.now.past.first }
    ensures length { length into.new ≡ length into.old }
    ensures bits { (span : ℕ) (groups : _) → length cuts.now ≡ length groups → AreCells span groups cells.now
        → (k : ℕ) → (bit into.new k ≡ 1) ↔ ((0 < asked k groups) × (missed_by K.order (Q.meant x) k cuts.now groups ≡ 0)) }
{
    let cell = cell_of(cuts, x);
    cells.read(cell, into);
}
