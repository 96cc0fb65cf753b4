//! The operands of one name and kind, with what is asked at each.
ghost use Rattle.std.specs.Prelude.{◌≡◌, ◌+◌, ◌*◌, ◌<◌, ◌≤◌, ◌^◌, ◌&&◌, ◌==◌, ℕ, not, cond, length, OnOk};
ghost use Rattle.match_cells.specs.Asks.{met};
ghost use Rattle.match_cells.specs.Cells.{asked, total, AreKnown};
ghost use Rattle.match_cells.specs.Places.{AreRising, side_of, missed_by};

use crate::ask::Ask;
use crate::place::cell_of;
use base::NoMemory;
use match_index::LineKey;
use std::alloc::Global;

/// Puts what a filter asks at an operand among the operands, which rise, each with all that is asked there.
pub fn put_ask<K: LineKey>(
    alloc: Global,
    cuts: &mut Vec<K>,
    groups: &mut Vec<Vec<Ask>>,
    key: K,
    ask: Ask,
) -> Result<(), NoMemory>
where
    K: Drop,
    requires paired { length cuts.old.items ≡ length groups.old.items }
    requires rising { AreRising K.order cuts.old.items }
    requires few { length cuts.old.items < 2 ^ 63 }
    ensures paired { OnOk result (length cuts.new.items ≡ length groups.new.items) }
    ensures rising { OnOk result (AreRising K.order cuts.new.items) }
    ensures missed { OnOk result ((x : K) (k : ℕ) → missed_by K.order x k cuts.new.items groups.new.items
        ≡ cond ((ask.id == k) && not (met (side_of (K.order key x)) ask)) 1 0 + missed_by K.order x k cuts.old.items groups.old.items) }
    ensures asked { OnOk result ((k : ℕ) → asked k groups.new.items ≡ cond (ask.id == k) 1 0 + asked k groups.old.items) }
    ensures known { OnOk result ((span : ℕ) → AreKnown span groups.old.items → ask.id < 64 * span → AreKnown span groups.new.items) }
    ensures size { OnOk result (length cuts.new.items ≤ length cuts.old.items + 1) }
    ensures total { OnOk result (total groups.new.items ≡ 1 + total groups.old.items) }
{
    let cell = cell_of(cuts, &key);
    let p = cell / 2;
    if cell % 2 == 1 {
        groups[p].push(ask)?;
        return Ok(());
    }
    let group = vec![in alloc; ask]?;
    cuts.insert(p, key)?;
    groups.insert(p, group)?;
    Ok(())
}
