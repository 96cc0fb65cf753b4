//! The cells of one name and kind.
ghost use Rattle.std.specs.Prelude.{◌≡◌, ℕ, ◌+◌, ◌*◌, ◌^◌, ◌<◌, ◌≤◌, length, slice_index, slice_index_or, ◌∷◌, [], OnOk, IfOk};
ghost use Rattle.match_cells.specs.Cells.{total, AreKnown, AreTold};
ghost use Rattle.match_cells.specs.Walks.{IsCounted};

use crate::ask::{Ask, Side};
use crate::first::{count_all, put_all};
use crate::history::History;
use crate::shift::shift;
use base::NoMemory;
use std::alloc::Global;
use std::marker::Model;

/// Goes past one operand: into the cell of the operand itself, and into the next one.
fn pass(
    lost: &mut [u32],
    history: &mut History,
    ends: &mut Vec<usize>,
    groups: &[Vec<Ask>],
    c: usize,
) -> Result<(), NoMemory>
    requires within { c < length groups.now }
    requires known { (d : _) (e : _) (b i : ℕ) → b < length groups.now → i < length (slice_index_or groups.now b d).items
        → (slice_index_or (slice_index_or groups.now b d).items i e).id < length lost.old }
    requires wide { length lost.old ≡ 64 * length history.old.first }
    requires few { total groups.now < 2 ^ 31 }
    requires counted { IsCounted groups.now (2 * c) lost.old history.old }
    requires long { length ends.old.items ≡ 2 * c + 1 }
    requires told { AreTold groups.now history.old ends.old.items }
    ensures length { length lost.new ≡ length lost.old }
    ensures first { OnOk result (length history.new.first ≡ length history.old.first) }
    ensures counted { OnOk result (IsCounted groups.now (2 * (c + 1)) lost.new history.new) }
    ensures long { OnOk result (length ends.new.items ≡ 2 * (c + 1) + 1) }
    ensures told { OnOk result (AreTold groups.now history.new ends.new.items) }
{
    shift(lost, history, &groups[c], Side::Below, Side::At)?;
    ends.push(history.len())?;
    shift(lost, history, &groups[c], Side::At, Side::Above)?;
    ends.push(history.len())?;
    Ok(())
}

/// The cells that the operands of one name and kind cut its values into, with the filters all of whose asks are met in each.
/// Contracts see where a history stands behind each cell.
#[derive(Drop)]
pub struct Cells {
    history: History,
    ends: Vec<usize>,
}

impl Model for Cells {
    ghost use Rattle.match_cells.specs.Cells.{CellParts};

    ghost Value = { CellParts };

    ghost view = { λ c. record { past = c.history; ends = c.ends.items } };
}

/// The history that begins with the first cell, and what is missed there.
fn begin(
    alloc: Global,
    lost: &mut [u32],
    span: usize,
    groups: &[Vec<Ask>],
) -> Result<History, NoMemory>
    requires wide { length lost.old ≡ 64 * span }
    requires known { AreKnown span groups.now }
    requires few { total groups.now < 2 ^ 31 }
    requires zero { (k : ℕ) → slice_index lost.old k ≡ 0 }
    ensures length { length lost.new ≡ length lost.old }
    ensures wide { IfOk result (λ h. length h.first ≡ span) }
    ensures counted { IfOk result (λ h. IsCounted groups.now 0 lost.new h) }
    ensures told { IfOk result (λ h. AreTold groups.now h (length h.changes ∷ [])) }
{
    count_all(lost, groups);
    let mut words = vec![in alloc; 0; span]?;
    put_all(&mut words, lost, groups);
    History::of(alloc, &words)
}

impl Cells {
    ghost use Rattle.std.specs.Prelude.{◌≡◌, ◌+◌, ◌*◌, ◌^◌, ◌<◌, ◌≤◌, length, slice_index, IfOk};
    ghost use Rattle.match_cells.specs.Changes.{after};
    ghost use Rattle.match_cells.specs.Cells.{total, AreKnown, AreCells};

    /// The cells of the asks at each operand, where the operands rise.
    pub fn of(alloc: Global, span: usize, groups: &[Vec<Ask>]) -> Result<Cells, NoMemory>
        requires narrow { span < 2 ^ 32 }
        requires known { AreKnown span groups.now }
        requires few { total groups.now < 2 ^ 31 }
        ensures { IfOk result (AreCells span groups.now) }
    {
        let mut lost = vec![in alloc; 0; span * 64]?;
        let mut history = begin(alloc, &mut lost, span, groups)?;
        let mut ends = vec![in alloc; history.len()]?;
        for c in 0..groups.len() {
            pass(&mut lost, &mut history, &mut ends, groups, c)?;
        }
        Ok(Cells { history, ends })
    }

    /// How many words a set takes.
    pub fn span(&self) -> usize
        ensures { result ≡ length self.now.past.first }
    {
        self.history.span()
    }

    /// Sets the words to the filters all of whose asks are met in a cell.
    pub fn read(&self, cell: usize, into: &mut [u64])
        requires cell { cell < length self.now.ends }
        requires known { slice_index self.now.ends cell ≤ length self.now.past.changes }
        requires wide { length into.old ≡ length self.now.past.first }
        ensures { into.new ≡ after self.now.past.first self.now.past.changes (slice_index self.now.ends cell) }
    {
        self.history.read(self.ends[cell], into);
    }
}
