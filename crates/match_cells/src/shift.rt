//! Going past an operand.
ghost use Rattle.std.specs.Prelude.{◌≡◌, ◌↔◌, ◌≢◌, ℕ, ◌+◌, ◌*◌, ◌^◌, ◌<◌, ◌≤◌, cond, length, Bool, slice_index, slice_index_or, OnOk};
ghost use Rattle.base_bits.specs.Words.{bit};
ghost use Rattle.match_cells.specs.Changes.{present, Continues};
ghost use Rattle.match_cells.specs.Asks.{met, missed};
ghost use Rattle.match_cells.specs.Moves.{Show, AreMembers};

use crate::ask::{Ask, Side};
use crate::history::History;
use base::NoMemory;

/// A filter's asks that are not met, where a value goes from one side of an operand to another.
#[inline]
fn counted(lost: u32, was: bool, is: bool) -> u32
    requires some { cond was 0 1 ≤ lost }
    requires fits { lost + 1 < 2 ^ 32 }
    ensures { result + cond was 0 1 ≡ lost + cond is 0 1 }
{
    match (was, is) {
        (true, false) => lost + 1,
        (false, true) => lost - 1,
        _ => lost,
    }
}

/// Goes, at the operand of some asks, from one side to another.
pub(crate) fn shift(
    lost: &mut [u32],
    history: &mut History,
    asks: &[Ask],
    from: Side,
    to: Side,
) -> Result<(), NoMemory>
    requires wide { length lost.old ≡ 64 * length history.old.first }
    requires known { (d : _) (i : ℕ) → i < length asks.now → (slice_index_or asks.now i d).id < length lost.old }
    requires some { (k : ℕ) → missed from k asks.now ≤ slice_index lost.old k }
    requires fits { (k : ℕ) → slice_index lost.old k + length asks.now < 2 ^ 32 }
    ensures length { length lost.new ≡ length lost.old }
    ensures lost { OnOk result ((k : ℕ) → slice_index lost.new k + missed from k asks.now ≡ slice_index lost.old k + missed to k asks.now) }
    ensures continues { OnOk result (Continues history.old history.new) }
    ensures shows { OnOk result ((members : ℕ → Bool) → AreMembers members asks.now
        → Show members lost.old (present history.old) → Show members lost.new (present history.new)) }
{
    for i in 0..asks.len() {
        let ask = asks[i];
        let k = ask.id as usize;
        let left = counted(lost[k], ask.met(from), ask.met(to));
        lost[k] = left;
        history.put(ask.id, left == 0)?;
    }
    Ok(())
}
