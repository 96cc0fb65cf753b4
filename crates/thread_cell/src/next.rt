//! Lets all cells enter the next phase.
ghost use Rattle.std.specs.Prelude.{◌≡◌, ◌<◌, ◌^◌, ℕ, Some, slice_get, OnOk};
ghost use Rattle.net_model.specs.Sound.{IsSound};
ghost use Rattle.thread_cell.specs.Cell.{CellParts};
ghost use Rattle.thread_cell.specs.Together.{AreTogether, cell_roots};
ghost use Rattle.thread_cell.specs.Relinking.{CanRaise, HasRaised};
ghost use Rattle.thread_cell.specs.Entered.{AreCalm, AreEntered, AreSameCells, AreThrough, greatest_cell_clock};

use crate::cell::Cell;
use crate::finish::lemma_all_kept;
use crate::relinking::relink;
use base::NoMemory;
use net_tables::Tables;
use server_flow::trees_come;
use std::alloc::Global;
use std::sync::Wait;

/// The greatest clock.
pub(crate) fn greatest(cells: &[Cell<'_>]) -> u64
    ensures greatest { result ≡ greatest_cell_clock cells.now }
    ensures low { result < 2 ^ 62 }
{
    let mut greatest = 0;
    for cell in cells {
        greatest = cell.core().clock().max(greatest);
    }
    greatest
}

/// Each cell enters a phase with the same tree, with this clock.
fn raise_all(cells: &mut [Cell<'_>], phase: u32, clock: u64)
    requires low { clock < 2 ^ 62 }
    requires can { (k : ℕ) (cell : CellParts) → slice_get cells.old k ≡ Some cell → CanRaise phase clock cell }
    ensures same { AreSameCells cells.old cells.new }
    ensures raised { (k : ℕ) (a b : CellParts) → slice_get cells.old k ≡ Some a → slice_get cells.new k ≡ Some b → HasRaised phase clock a b }
{
    for k in 0..cells.len() {
        cells[k].enter_phase(phase, clock);
    }
}

/// The cells of all servers enter a later phase with the greatest of their clocks. Where its tree is another one they have new
/// lanes, hold of their neighbours what flows over it, and have installed all that they hold; what lay on the old lanes is gone,
/// so the rule of phases wants them empty.
/// Publishers and journals stay. Where it finds no memory some cells may have entered the phase; each can be ended.
pub fn enter_next<'a, R: Wait>(
    alloc: Global,
    rt: &R,
    tables: &'a Tables<'a>,
    cells: &mut [Cell<'a>],
    last: u32,
    phase: u32,
) -> Result<(), NoMemory>
    requires sound { IsSound tables.now }
    requires together { AreTogether tables.now last (cell_roots cells.old) }
    requires later { last < phase }
    requires calm { AreCalm cells.old }
    requires through { AreThrough phase cells.old }
    ensures same { AreSameCells cells.old cells.new }
    ensures entered { OnOk result (AreEntered tables.now last phase cells.old cells.new) }
{
    let net = tables.net();
    if trees_come(net, last) == trees_come(net, phase) {
        lemma_all_kept(cells);
        let clock = greatest(cells);
        raise_all(cells, phase, clock);
        return Ok(());
    }
    relink(alloc, rt, tables, cells, phase)
}
