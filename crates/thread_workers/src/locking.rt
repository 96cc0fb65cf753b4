//! Puts cells into their locks, and takes them out.
ghost use Rattle.std.specs.Prelude.{◌≡◌, ◌≤◌, ◌<◌, [], All, IsTrue, length, map, MatchBool, vec_capacity, ◌^◌};
ghost use mathlib.Core.List.{IsPrefix};
ghost use Rattle.thread_lock.specs.Passes.{first_value, pass_count};
ghost use Rattle.filter_text.specs.MessageText.{Each};
ghost use Rattle.thread_cell.specs.Together.{cell_roots, HaveGrown};
ghost use Rattle.thread_workers.specs.ServerWorkers.{AreBackAt, AreAllWorkers, AreViewersOf, AreInPlace, HasSeenFirst, AreWorkersOf, IsFreePass, AreSpareOf, Pairwise};
ghost use Rattle.thread_workers.specs.WorkerHandles.{IsLockFor, lock_root};
ghost use Rattle.thread_workers.specs.Journals.{HasExecuted};

use crate::ended::{Ended, lacked_memory};
use crate::server_workers::{Both, ServerWorkers, SparePasses, Viewers};
use crate::worker_handles::WorkerHandles;
use net_model::Entry;
use net_tables::Tables;
use server_core::StepFault;
use std::alloc::Global;
use thread_cell::{Cell, Root};
use thread_lock::{Pass, TurnLock};

/// The workers of a lock with its three passes.
fn workers_of<'a>(
    tables: &Tables<'a>,
    phase: u32,
    server: u32,
    lock: &TurnLock<Cell<'a>>,
    mut passes: Vec<Pass<Entry, Root<'a>>>,
    viewers: Viewers,
) -> ServerWorkers<'a>
    requires lock { IsLockFor tables.now server phase lock.now }
    requires passes { All (IsFreePass lock.now) passes.items }
    requires seen { All (HasSeenFirst lock.now) passes.items }
    requires three { (length passes.items ≡ 3) × (pass_count lock.now ≡ 3) }
    requires viewers { AreViewersOf (lock_root lock.now) viewers }
    ensures { AreWorkersOf tables.now phase lock.now result }
{
    let (_tables, _phase, _lock) = (tables, phase, lock);
    let Some(links) = passes.pop() else {
        unreachable!()
    };
    let Some(commands) = passes.pop() else {
        unreachable!()
    };
    ServerWorkers {
        server,
        spare: SparePasses { passes },
        commands: WorkerHandles {
            pass: commands,
            viewer: viewers.commands,
        },
        links: WorkerHandles {
            pass: links,
            viewer: viewers.links,
        },
    }
}

/// Takes a cell out of its lock after its workers.
fn unlock<'a>(
    lock: TurnLock<Cell<'a>>,
    spare: SparePasses<'a>,
    done: Both<Ended<'a>>,
) -> (Cell<'a>, Viewers)
    requires spare { AreSpareOf lock spare }
    requires back { AreBackAt lock done }
    ensures root { result.0.root ≡ lock_root lock.entry }
    ensures grown { IsPrefix (first_value lock.entry).journal result.0.journal }
    ensures executed { (done.entry.commands.fault ≡ Some StepFault.NoMemory → ⊥) → HasExecuted result.0 }
    ensures viewers { AreViewersOf (lock_root lock.entry) result.1 }
{
    let SparePasses { mut passes } = spare;
    let Both { commands, links } = done;
    passes.push_reserved(commands.pass);
    passes.push_reserved(links.pass);
    let viewers = Viewers {
        commands: commands.viewer,
        links: links.viewer,
    };
    (lock.close(passes), viewers)
}

/// Whether neither worker of a server ran out of memory.
fn had_both(done: &Both<Ended<'_>>) -> bool
    ensures { IsTrue result → done.now.commands.fault ≡ Some StepFault.NoMemory → ⊥ }
{
    !lacked_memory(&done.commands.fault) && !lacked_memory(&done.links.fault)
}

/// Puts the last cells into locks first, each with its workers, and answers whether there was memory. Where there was none all
/// cells are out of their locks again.
pub(crate) fn lock_all<'a>(
    alloc: Global,
    tables: &Tables<'a>,
    phase: u32,
    cells: &mut Vec<Cell<'a>>,
    viewers: &mut Vec<Viewers>,
    locks: &mut Vec<TurnLock<Cell<'a>>>,
    all_workers: &mut Vec<ServerWorkers<'a>>,
) -> bool
    requires place { AreInPlace tables.now phase (cell_roots cells.old.items) }
    requires few { length cells.old.items < 2 ^ 32 }
    requires viewers { Pairwise AreViewersOf (cell_roots cells.old.items) viewers.old.items }
    requires empty { (locks.old.items ≡ []) × (all_workers.old.items ≡ []) }
    requires room { (length cells.old.items ≤ vec_capacity locks.old) × (length cells.old.items ≤ vec_capacity all_workers.old) }
    ensures locked { MatchBool result
        (AreAllWorkers tables.now phase locks.new.items all_workers.new.items × (map lock_root locks.new.items ≡ cell_roots cells.old.items))
        ((locks.new.items ≡ []) × (all_workers.new.items ≡ [])) }
    ensures cells { MatchBool result ((cells.new.items ≡ []) × (viewers.new.items ≡ []))
        ((cell_roots cells.new.items ≡ cell_roots cells.old.items) × Pairwise AreViewersOf (cell_roots cells.old.items) viewers.new.items) }
    ensures values { MatchBool result (map first_value locks.new.items ≡ cells.old.items) (HaveGrown cells.old.items cells.new.items) }
    ensures capacity { (vec_capacity cells.new ≡ vec_capacity cells.old) × (vec_capacity viewers.new ≡ vec_capacity viewers.old) }
    ensures room { (vec_capacity locks.new ≡ vec_capacity locks.old) × (vec_capacity all_workers.new ≡ vec_capacity all_workers.old) }
{
    let Some(cell) = cells.pop() else { return true };
    let Some(both) = viewers.pop() else {
        unreachable!()
    };
    let server = cells.len() as u32 + 1;
    let (lock, passes) = match TurnLock::make(alloc, cell, 3) {
        Ok(made) => made,
        Err(cell) => {
            cells.push_reserved(cell);
            viewers.push_reserved(both);
            return false;
        }
    };
    if !lock_all(alloc, tables, phase, cells, viewers, locks, all_workers) {
        cells.push_reserved(lock.close(passes));
        viewers.push_reserved(both);
        return false;
    }
    all_workers.push_reserved(workers_of(tables, phase, server, &lock, passes, both));
    locks.push_reserved(lock);
    true
}

/// Takes all cells out of their locks, in the same order, and answers whether no worker ran out of memory.
pub(crate) fn unlock_all<'a>(
    locks: &mut Vec<TurnLock<Cell<'a>>>,
    mut spares: Vec<SparePasses<'a>>,
    mut done: Vec<Both<Ended<'a>>>,
    cells: &mut Vec<Cell<'a>>,
    viewers: &mut Vec<Viewers>,
) -> bool
    requires spares { Pairwise AreSpareOf locks.old.items spares.items }
    requires back { Pairwise AreBackAt locks.old.items done.items }
    requires empty { (cells.old.items ≡ []) × (viewers.old.items ≡ []) }
    requires room { (length locks.old.items ≤ vec_capacity cells.old) × (length locks.old.items ≤ vec_capacity viewers.old) }
    ensures empty { locks.new.items ≡ [] }
    ensures roots { cell_roots cells.new.items ≡ map lock_root locks.old.items }
    ensures grown { HaveGrown (map first_value locks.old.items) cells.new.items }
    ensures executed { IsTrue result → Each HasExecuted cells.new.items }
    ensures viewers { Pairwise AreViewersOf (cell_roots cells.new.items) viewers.new.items }
    ensures capacity { (vec_capacity cells.new ≡ vec_capacity cells.old) × (vec_capacity viewers.new ≡ vec_capacity viewers.old) }
{
    let Some(lock) = locks.pop() else { return true };
    let Some(spare) = spares.pop() else {
        unreachable!()
    };
    let Some(both) = done.pop() else {
        unreachable!()
    };
    let here = had_both(&both);
    let (cell, of_cell) = unlock(lock, spare, both);
    let rest = unlock_all(locks, spares, done, cells, viewers);
    cells.push_reserved(cell);
    viewers.push_reserved(of_cell);
    rest && here
}
