//! The cell of a value.
ghost use Rattle.std.specs.Prelude.{◌≡◌, ◌*◌, ◌^◌, ◌<◌, ◌≤◌, length};
ghost use Rattle.match_cells.specs.Places.{AreRising, IsCell};

use match_index::{LineKey, Sought, below};

/// The cell that a value falls in, among operands that rise: 2 p + 1 at the operand with p before it, and 2 p between two.
pub fn cell_of<K: LineKey, Q: Sought<K>>(cuts: &[K], x: Q) -> usize
    requires rising { AreRising K.order cuts.now }
    requires few { length cuts.now < 2 ^ 63 }
    ensures cell { IsCell K.order (Q.meant x) cuts.now result }
    ensures within { result ≤ 2 * length cuts.now }
{
    let p = below(cuts, x);
    if p == cuts.len() {
        return 2 * p;
    }
    if x.against(&cuts[p]).is_eq() {
        2 * p + 1
    } else {
        2 * p
    }
}
