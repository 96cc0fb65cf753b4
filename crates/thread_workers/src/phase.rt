//! Runs the workers of all servers in one phase, in a few threads.
ghost use Rattle.std.specs.Prelude.{◌≡◌, ◌≤◌, ◌<◌, ◌*◌, ◌^◌, [], length, map, vec_capacity, OnOk};
ghost use Rattle.filter_text.specs.MessageText.{Each};
ghost use Rattle.thread_cell.specs.Together.{cell_roots, HaveGrown};
ghost use Rattle.thread_workers.specs.ServerWorkers.{AreBackAt, AreAllWorkers, AreViewersOf, AreInPlace, HaveRoom, AreSpareOf, Pairwise};
ghost use Rattle.thread_workers.specs.Journals.{HasExecuted};

use crate::ended::Ended;
use crate::hire::{hire_all, take_all};
use crate::jobs::run_all;
use crate::locking::{lock_all, unlock_all};
use crate::pace::Pace;
use crate::phase_context::PhaseContext;
use crate::server_workers::{Both, ServerWorkers, SparePasses, Viewers};
use crate::workers_of_thread::{Back, ThreadWorkers, empty};
use base::NoMemory;
use base_devices::Gate;
use net_tables::Tables;
use std::alloc::Global;
use std::sync::Wait;
use std::thread::Threads;
use thread_cell::Cell;
use thread_lock::TurnLock;

// So many threads can be numbered.
const MOST: usize = 64;

/// The threads for so many servers: one a worker, up to as many as are wanted.
fn threads_for(servers: usize, wanted: usize) -> usize
    ensures { (0 < result) × (result ≤ 64) }
{
    servers.saturating_mul(2).min(wanted).clamp(1, MOST)
}

/// The workers of all locks do what there is to do, each in its thread. What stayed of the workers then stands beside the locks, and
/// so does what the workers gave back.
fn work_all<'l, 'a, R: Threads + Wait + Sync, G: Gate + Sync>(
    phase_context: &PhaseContext<'l, 'a, R, G>,
    locks: &'l [TurnLock<Cell<'a>>],
    all_workers: Vec<ServerWorkers<'a>>,
    mut by_thread: Vec<ThreadWorkers<'l, 'a, R, G>>,
    rows: Vec<Back<'a>>,
    spares: &mut Vec<SparePasses<'a>>,
    done: &mut Vec<Both<Ended<'a>>>,
)
    requires all_workers { AreAllWorkers phase_context.now.tables.now phase_context.now.phase locks.now all_workers.items }
    requires few { length locks.now < 2 ^ 32 }
    requires threads { (0 < length by_thread.items) × (length by_thread.items ≤ 64) }
    requires by_thread { HaveRoom (2 * length locks.now) (map (λ r. (length r.workers.items, r.room)) by_thread.items) }
    requires empty { (rows.items ≡ []) × (spares.old.items ≡ []) × (done.old.items ≡ []) }
    requires room { (length by_thread.items ≤ vec_capacity rows) × (length locks.now ≤ vec_capacity spares.old) × (length locks.now ≤ vec_capacity done.old) }
    ensures spares { Pairwise AreSpareOf locks.now spares.new.items }
    ensures back { Pairwise AreBackAt locks.now done.new.items }
{
    hire_all(phase_context, locks, all_workers, &mut by_thread, spares);
    let mut rows = run_all(phase_context.rt, phase_context.pace, by_thread, rows);
    take_all(locks, &mut rows, done);
}

/// The workers of all servers in the phase that the cells are in: two at each cell, in as many threads of a scope as are wanted
/// (one at least, this one; 64 or one a worker at most). Where no thread can be had a worker is run here. After the joins all
/// cells are back, with their roots as before and journals that went on, whatever a worker met; and where none ran out of
/// memory, each has the commands of the phase, or a pass saw that no stamp is left.
pub fn run_phase<'a, R: Threads + Wait + Sync, G: Gate + Sync>(
    alloc: Global,
    rt: &R,
    tables: &Tables<'a>,
    gate: &G,
    threads: usize,
    phase: u32,
    cells: &mut Vec<Cell<'a>>,
    viewers: &mut Vec<Viewers>,
) -> Result<(), NoMemory>
    requires place { AreInPlace tables.now phase (cell_roots cells.old.items) }
    requires few { length cells.old.items < 2 ^ 32 }
    requires viewers { Pairwise AreViewersOf (cell_roots cells.old.items) viewers.old.items }
    ensures roots { cell_roots cells.new.items ≡ cell_roots cells.old.items }
    ensures grown { HaveGrown cells.old.items cells.new.items }
    ensures executed { OnOk result (Each HasExecuted cells.new.items) }
    ensures viewers { Pairwise AreViewersOf (cell_roots cells.new.items) viewers.new.items }
{
    let count = cells.len();
    let threads = threads_for(count, threads);
    let pace = Pace::new(threads);
    let phase_context = PhaseContext {
        rt,
        alloc,
        tables,
        phase,
        gate,
        pace: &pace,
    };
    let by_thread = empty(&phase_context, threads, 2 * count)?;
    let rows = Vec::with_capacity(alloc, threads)?;
    let mut spares = Vec::with_capacity(alloc, count)?;
    let mut done = Vec::with_capacity(alloc, count)?;
    let mut all_workers = Vec::with_capacity(alloc, count)?;
    let mut locks = Vec::with_capacity(alloc, count)?;
    if !lock_all(
        alloc,
        tables,
        phase,
        cells,
        viewers,
        &mut locks,
        &mut all_workers,
    ) {
        locks.destroy_empty();
        return Err(NoMemory);
    }
    work_all(
        &phase_context,
        &locks,
        all_workers,
        by_thread,
        rows,
        &mut spares,
        &mut done,
    );
    let enough = unlock_all(&mut locks, spares, done, cells, viewers);
    locks.destroy_empty();
    if enough { Ok(()) } else { Err(NoMemory) }
}
