//! Brings all that one element of a slice put for another to that one's taking end.
ghost use Rattle.std.specs.Prelude.{◌≡◌, ◌<◌, ℕ, false, length, map, OnOk, Some, slice_get};
ghost use Rattle.server_message.specs.declared.stamped.StampedLoad.{StampedLoad as ItemParts};
ghost use Rattle.thread_cell.specs.Links.{At, IsOneLane, IsSettledLane};
ghost use Rattle.thread_cell.specs.LaneReceiving.{IsNextAt};
ghost use Rattle.thread_cell.specs.Together.{root_links, sight};

use crate::cell::Cell;
use base::NoMemory;

/// What has lanes to others of its kind.
pub(crate) trait Settles {
    ghost use Rattle.std.specs.Prelude.{◌≡◌, OnOk};
    ghost use Rattle.server_message.specs.declared.stamped.StampedLoad.{StampedLoad as ItemParts};
    ghost use Rattle.thread_cell.specs.Cell.{CellParts};
    ghost use Rattle.thread_cell.specs.Links.{At, IsOneLane, IsSettledLane};
    ghost use Rattle.thread_cell.specs.LaneReceiving.{IsNextAt};
    ghost use Rattle.thread_cell.specs.Together.{root_links, sight};

    /// The cell that it is.
    ghost cell: { Self → CellParts };

    /// Brings all that was put on the lane to another, and not taken, to its taking end.
    fn settle(&mut self, to: usize, taker: &mut Self, from: usize) -> Result<(), NoMemory>
        requires lane { At IsOneLane to (root_links (cell self.old).root) from (root_links (cell taker.old).root) }
        ensures giver { sight (cell self.new) ≡ sight (cell self.old) }
        ensures taker { sight (cell taker.new) ≡ sight (cell taker.old) }
        ensures settled { OnOk result (At IsSettledLane to (cell self.new).held.links.items from (cell taker.new).held.links.items) }
        ensures next { (item : ItemParts) → IsNextAt from item (cell taker.old).held.links.items
            → IsNextAt from item (cell taker.new).held.links.items };
}

impl<'a> Settles for Cell<'a> {
    ghost cell = { λ c. c };

    fn settle(&mut self, to: usize, taker: &mut Cell<'a>, from: usize) -> Result<(), NoMemory> {
        self.settle_with(to, taker, from)
    }
}

/// Brings all that one put for another, and that was not taken, to the taking end.
pub(crate) fn settle_two<T: Settles>(
    all: &mut [T],
    giver: usize,
    to: usize,
    taker: usize,
    from: usize,
) -> Result<(), NoMemory>
    requires giver { giver < length all.old }
    requires taker { taker < length all.old }
    requires apart { giver ≡ taker → ⊥ }
    requires lane { (a b : T) → slice_get all.old giver ≡ Some a → slice_get all.old taker ≡ Some b
        → At IsOneLane to (root_links (T.cell a).root) from (root_links (T.cell b).root) }
    ensures sights { map (λ a. sight (T.cell a)) all.new ≡ map (λ a. sight (T.cell a)) all.old }
    ensures settled { OnOk result ((a b : T) × (slice_get all.new giver ≡ Some a) × (slice_get all.new taker ≡ Some b)
        × At IsSettledLane to (T.cell a).held.links.items from (T.cell b).held.links.items) }
    ensures next { (b : T) (item : ItemParts) → slice_get all.old taker ≡ Some b → IsNextAt from item (T.cell b).held.links.items
        → (c : T) × (slice_get all.new taker ≡ Some c) × IsNextAt from item (T.cell c).held.links.items }
{
    if giver < taker {
        let (left, right) = all.split_at_mut(taker);
        left[giver].settle(to, &mut right[0], from)
    } else {
        let (left, right) = all.split_at_mut(giver);
        right[0].settle(to, &mut left[taker], from)
    }
}
