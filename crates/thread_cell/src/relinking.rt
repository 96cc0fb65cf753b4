//! Sets all servers on the tree of another phase.
ghost use Rattle.std.specs.Prelude.{◌≡◌, ◌<◌, ◌^◌, ℕ, false, List, length, map, Some, slice_get, OnOk};
ghost use Rattle.law_phases.specs.Trees.{is_one_tree};
ghost use Rattle.net_model.specs.Real.{real};
ghost use Rattle.net_model.specs.Nets.{phased_net};
ghost use Rattle.net_model.specs.Sound.{IsSound};
ghost use Rattle.server_control.specs.Held.{held_in, AreHeldIn};
ghost use Rattle.thread_cell.specs.declared.link.Link.{Link as LinkParts};
ghost use Rattle.thread_cell.specs.Cell.{CellParts};
ghost use Rattle.thread_cell.specs.Together.{AreTogether, cell_roots};
ghost use Rattle.thread_cell.specs.Relinking.{CanMove, HasMoved};
ghost use Rattle.thread_cell.specs.Entered.{AreCalm, AreEntered, AreSameCells, AreThrough};

use crate::cell::Cell;
use crate::finish::lemma_all_kept;
use crate::homes::homes;
use crate::lanes::lanes_of;
use crate::link::Link;
use crate::next::greatest;
use base::NoMemory;
use net_tables::Tables;
use server_control::HeldLink;
use server_flow::flow;
use std::alloc::Global;
use std::mem::replace;
use std::sync::Wait;

/// Each cell enters the phase on its links, of which this is given, over its row of lanes.
fn move_all<'a, R: Wait>(
    alloc: Global,
    rt: &R,
    cells: &mut [Cell<'a>],
    phase: u32,
    clock: u64,
    given: &[Vec<HeldLink<'a>>],
    mut rows: Vec<Vec<Link>>,
) -> Result<(), NoMemory>
    requires given { length given.now ≡ length cells.old }
    requires rows { length rows.items ≡ length cells.old }
    requires low { clock < 2 ^ 62 }
    requires net { (k : ℕ) (cell : CellParts) (links : _) → slice_get cells.old k ≡ Some cell → slice_get given.now k ≡ Some links
        → AreHeldIn cell.root.net.value links.items }
    requires can { (k : ℕ) (cell : CellParts) (links : _) (row : List LinkParts) → slice_get cells.old k ≡ Some cell → slice_get given.now k ≡ Some links
        → slice_get (map (λ r. r.items) rows.items) k ≡ Some row → CanMove phase clock (held_in links.items) row cell }
    ensures same { AreSameCells cells.old cells.new }
    ensures moved { OnOk result ((k : ℕ) (a b : CellParts) (links : _) (row : List LinkParts) → slice_get cells.old k ≡ Some a → slice_get cells.new k ≡ Some b
        → slice_get given.now k ≡ Some links → slice_get (map (λ r. r.items) rows.items) k ≡ Some row → HasMoved phase clock (held_in links.items) row a b) }
{
    for k in 0..cells.len() {
        let links = replace(&mut rows[k], Vec::new(alloc));
        cells[k].enter_on(rt, phase, clock, &given[k], links)?;
    }
    Ok(())
}

/// The cells of all servers enter a later phase with another tree, with the greatest of their clocks. They have new lanes,
/// one each way for each edge of that tree, hold of their neighbours what flows over it, and have installed all that they hold;
/// what lay on the old lanes is gone, so the rule of phases wants them empty.
/// Publishers and journals stay. Where it finds no memory some cells may have entered the phase; each can be ended.
pub fn relink<'a, R: Wait>(
    alloc: Global,
    rt: &R,
    tables: &'a Tables<'a>,
    cells: &mut [Cell<'a>],
    phase: u32,
) -> Result<(), NoMemory>
    requires sound { IsSound tables.now }
    requires together { (last : ℕ) × AreTogether tables.now last (cell_roots cells.old) × (last < phase) }
    requires calm { AreCalm cells.old }
    requires through { AreThrough phase cells.old }
    ensures same { AreSameCells cells.old cells.new }
    ensures entered { OnOk result ((last : ℕ) → AreTogether tables.now last (cell_roots cells.old) → last < phase
        → is_one_tree real (phased_net tables.now) last phase ≡ false → AreEntered tables.now last phase cells.old cells.new) }
{
    lemma_all_kept(cells);
    let clock = greatest(cells);
    let tree = tables.net().tree(phase);
    tree.lemma_laws();
    let homes = homes(alloc, cells)?;
    let given = flow(alloc, tables, tree, &homes)?;
    let rows = lanes_of(alloc, tree)?;
    move_all(alloc, rt, cells, phase, clock, &given, rows)
}
