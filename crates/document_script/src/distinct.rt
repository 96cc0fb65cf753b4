//! Keeps constraints while a line is read: equal ones once where room is scarce, and no more than show that there
//! are too many.
ghost use Rattle.std.specs.Prelude.{◌≡◌, ◌<◌, [], true, length, IfOk, OnOk};
ghost use Rattle.std.specs.List.Retain.{IsFiltered, DiffersFromLast};
ghost use Rattle.std.specs.Ordering.{eq_by_cmp};
ghost use Rattle.filter_constraints.specs.Order.{constraint_cmp};
ghost use Rattle.filter_types.specs.Canonical.{canonical};

use base::NoMemory;
use filter_constraints::Constraint;

// Of neighbours that are equal the first alone.
fn drop_repeats(sorted: &mut Vec<Constraint>)
    ensures { IsFiltered (DiffersFromLast (eq_by_cmp constraint_cmp)) [] sorted.old.items sorted.new.items }
{
    sorted.dedup();
}

// Each constraint once, in the canonical order.
fn make_canonical(kept: &mut Vec<Constraint>)
    ensures { kept.new.items ≡ canonical kept.old.items }
{
    kept.sort_unstable();
    drop_repeats(kept);
}

/// Whether there are more than 64 distinct constraints; else there is room for one more. Where 64 or more leave no room,
/// equal ones become one first.
pub(crate) fn make_room(kept: &mut Vec<Constraint>) -> Result<bool, NoMemory>
    ensures same { OnOk result (canonical kept.new.items ≡ canonical kept.old.items) }
    ensures many { IfOk result (λ many. many ≡ true → 64 < length (canonical kept.old.items)) }
{
    if kept.len() < 64 || kept.len() < kept.capacity() {
        return Ok(false);
    }
    make_canonical(kept);
    if kept.len() > 64 {
        return Ok(true);
    }
    kept.reserve(kept.len())?;
    Ok(false)
}
