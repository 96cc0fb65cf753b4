//! Puts workers, with all that they are given, into their threads.
ghost use Rattle.std.specs.Prelude.{◌≡◌, ◌≤◌, ◌<◌, ◌*◌, ◌^◌, ℕ, suc, [], List, length, map, vec_capacity};
ghost use Rattle.base_devices.specs.declared.gate.WorkerRole.{WorkerRole as WorkerKind};
ghost use Rattle.thread_workers.specs.ServerWorkers.{AreBack, AreBackAt, AreAllWorkers, HaveRoom, IsBack, AreSpareOf, Pairwise};
ghost use Rattle.thread_workers.specs.ServerWorkers.{at_lock, thread_at, with_all, with_one};
ghost use Rattle.thread_workers.specs.WorkerHandles.{AreFreeHandles, CellLock, IsLockFor};

use crate::ended::Ended;
use crate::phase_context::PhaseContext;
use crate::server_workers::{Both, ServerWorkers, SparePasses};
use crate::worker::Worker;
use crate::worker_context::WorkerContext;
use crate::worker_handles::WorkerHandles;
use crate::workers_of_thread::{Back, ThreadWorkers};
use base_devices::{Gate, WorkerRole};
use std::sync::Wait;
use thread_cell::Cell;
use thread_lock::TurnLock;

/// A worker of a server at its lock.
fn worker_at<'l, 'a, R: Wait, G: Gate>(
    phase_context: &PhaseContext<'l, 'a, R, G>,
    server: u32,
    worker: WorkerRole,
    lock: &'l TurnLock<Cell<'a>>,
    handles: WorkerHandles<'a>,
) -> Worker<'l, 'a, R, G>
    requires lock { IsLockFor phase_context.now.tables.now server phase_context.now.phase lock.now }
    requires free { AreFreeHandles lock.now handles.pass handles.viewer }
    ensures lock { result.context.lock.now ≡ lock.now }
    ensures worker { result.context.worker ≡ worker }
{
    Worker {
        context: WorkerContext {
            rt: phase_context.rt,
            alloc: phase_context.alloc,
            tables: phase_context.tables,
            server,
            phase: phase_context.phase,
            worker,
            lock,
            gate: phase_context.gate,
            pace: phase_context.pace,
        },
        handles,
        at: 0,
        over: false,
        fault: None,
    }
}

/// The thread of a worker, of so many: the workers of a server stand half of all threads apart.
fn thread_of(server: usize, worker: WorkerRole, threads: usize) -> usize
    requires server { server < 2 ^ 32 }
    requires threads { (0 < threads) × (threads < 2 ^ 32) }
    ensures within { result < threads }
    ensures place { result ≡ thread_at threads server worker }
{
    match worker {
        WorkerRole::Commands => server % threads,
        WorkerRole::Links => (server + threads / 2) % threads,
    }
}

/// A worker is the last one of a thread.
fn add<'l, 'a, R: Wait, G: Gate>(
    by_thread: &mut Vec<ThreadWorkers<'l, 'a, R, G>>,
    thread: usize,
    worker: Worker<'l, 'a, R, G>,
)
    requires thread { thread < length by_thread.old.items }
    requires room { (left : ℕ) × HaveRoom (suc left) (map (λ r. (length r.workers.items, r.room)) by_thread.old.items) }
    ensures count { length by_thread.new.items ≡ length by_thread.old.items }
    ensures room { (left : ℕ) → HaveRoom (suc left) (map (λ r. (length r.workers.items, r.room)) by_thread.old.items)
        → HaveRoom left (map (λ r. (length r.workers.items, r.room)) by_thread.new.items) }
    ensures added { map (λ r. map (λ p. at_lock p.context.lock.now p.context.worker) r.workers.items) by_thread.new.items
        ≡ with_one thread (at_lock worker.entry.context.lock.now worker.entry.context.worker)
        (map (λ r. map (λ p. at_lock p.context.lock.now p.context.worker) r.workers.items) by_thread.old.items) }
{
    by_thread[thread].add(worker);
}

/// The workers of all locks stand in their threads, and what stays of each server's workers stands beside.
pub(crate) fn hire_all<'l, 'a, R: Wait, G: Gate>(
    phase_context: &PhaseContext<'l, 'a, R, G>,
    locks: &'l [TurnLock<Cell<'a>>],
    mut all_workers: Vec<ServerWorkers<'a>>,
    by_thread: &mut Vec<ThreadWorkers<'l, 'a, R, G>>,
    spares: &mut Vec<SparePasses<'a>>,
)
    requires all_workers { AreAllWorkers phase_context.now.tables.now phase_context.now.phase locks.now all_workers.items }
    requires few { length locks.now < 2 ^ 32 }
    requires threads { (0 < length by_thread.old.items) × (length by_thread.old.items < 2 ^ 32) }
    requires empty { spares.old.items ≡ [] }
    requires room { length locks.now ≤ vec_capacity spares.old }
    requires by_thread { HaveRoom (2 * length locks.now) (map (λ r. (length r.workers.items, r.room)) by_thread.old.items) }
    ensures hired { map (λ r. map (λ p. at_lock p.context.lock.now p.context.worker) r.workers.items) by_thread.new.items
        ≡ with_all (length by_thread.old.items) 0 locks.now
        (map (λ r. map (λ p. at_lock p.context.lock.now p.context.worker) r.workers.items) by_thread.old.items) }
    ensures count { length by_thread.new.items ≡ length by_thread.old.items }
    ensures spares { Pairwise AreSpareOf locks.now spares.new.items }
    ensures capacity { vec_capacity spares.new ≡ vec_capacity spares.old }
{
    let Some((lock, others)) = locks.split_last() else {
        return;
    };
    let Some(server_workers) = all_workers.pop() else {
        unreachable!()
    };
    let ServerWorkers {
        server,
        spare,
        commands,
        links,
    } = server_workers;
    let threads = by_thread.len();
    let first = thread_of(others.len(), WorkerRole::Commands, threads);
    let second = thread_of(others.len(), WorkerRole::Links, threads);
    let commands = worker_at(phase_context, server, WorkerRole::Commands, lock, commands);
    let links = worker_at(phase_context, server, WorkerRole::Links, lock, links);
    add(by_thread, first, commands);
    add(by_thread, second, links);
    hire_all(phase_context, others, all_workers, by_thread, spares);
    spares.push_reserved(spare);
}

/// What the last worker of a thread gave back leaves it.
fn take<'a>(rows: &mut Vec<Back<'a>>, thread: usize) -> Ended<'a>
    requires thread { thread < length rows.old.items }
    requires one { (at : CellLock × WorkerKind) × (less : List (List (CellLock × WorkerKind))) × AreBack (with_one thread at less) rows.old.items }
    ensures count { length rows.new.items ≡ length rows.old.items }
    ensures taken { (at : CellLock × WorkerKind) → (less : List (List (CellLock × WorkerKind))) → AreBack (with_one thread at less) rows.old.items
        → IsBack at result × AreBack less rows.new.items }
{
    let Some(ended) = rows[thread].ended.pop() else {
        unreachable!()
    };
    ended
}

/// What the workers of all locks gave back leaves the threads, and stands beside one another.
pub(crate) fn take_all<'a>(
    locks: &[TurnLock<Cell<'a>>],
    rows: &mut Vec<Back<'a>>,
    done: &mut Vec<Both<Ended<'a>>>,
)
    requires few { length locks.now < 2 ^ 32 }
    requires threads { (0 < length rows.old.items) × (length rows.old.items < 2 ^ 32) }
    requires empty { done.old.items ≡ [] }
    requires room { length locks.now ≤ vec_capacity done.old }
    requires rows { (less : List (List (CellLock × WorkerKind))) × AreBack (with_all (length rows.old.items) 0 locks.now less) rows.old.items }
    ensures count { length rows.new.items ≡ length rows.old.items }
    ensures rows { (less : List (List (CellLock × WorkerKind))) → AreBack (with_all (length rows.old.items) 0 locks.now less) rows.old.items
        → AreBack less rows.new.items }
    ensures back { Pairwise AreBackAt locks.now done.new.items }
    ensures capacity { vec_capacity done.new ≡ vec_capacity done.old }
{
    let Some((lock, others)) = locks.split_last() else {
        return;
    };
    let _lock = lock;
    take_all(others, rows, done);
    let threads = rows.len();
    let first = thread_of(others.len(), WorkerRole::Commands, threads);
    let second = thread_of(others.len(), WorkerRole::Links, threads);
    let links = take(rows, second);
    let commands = take(rows, first);
    done.push_reserved(Both { commands, links });
}
