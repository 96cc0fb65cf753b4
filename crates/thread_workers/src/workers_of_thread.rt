//! The type of the workers of one thread, which goes round them.
ghost use Rattle.std.specs.Prelude.{◌≡◌, ◌≤◌, [], IfOk, length, map, vec_capacity};
ghost use Rattle.thread_workers.specs.ServerWorkers.{HaveRoom, IsBack, Pairwise, at_lock};

use crate::ended::Ended;
use crate::jobs::Job;
use crate::pace::Pace;
use crate::phase_context::PhaseContext;
use crate::worker::Worker;
use crate::worker_state::Progress;
use base::NoMemory;
use base_devices::Gate;
use std::sync::Wait;
use std::thread::yield_now;

// So often in a row a thread that finds nothing looks again before it parks.
const LOOKS: u32 = 8;

/// The workers of the thread with a number, and room for so many of them and for what they give back.
#[derive(Drop)]
pub(crate) struct ThreadWorkers<'l, 'a, R: Wait, G: Gate> {
    pub(crate) phase_context: PhaseContext<'l, 'a, R, G>,
    pub(crate) number: usize,
    pub(crate) room: usize,
    pub(crate) workers: Vec<Worker<'l, 'a, R, G>>,
    pub(crate) ended: Vec<Ended<'a>>,
    ghost none: { length ended.items ≡ 0 },
    ghost fit: { length workers.items ≤ room },
    ghost reserved: { (room ≤ vec_capacity workers) × (room ≤ vec_capacity ended) },
}

/// What the workers of a thread gave back, in their order.
#[derive(Drop)]
pub(crate) struct Back<'a> {
    pub(crate) ended: Vec<Ended<'a>>,
}

impl<'l, 'a, R: Wait, G: Gate> ThreadWorkers<'l, 'a, R, G> {
    ghost use Rattle.std.specs.Prelude.{◌≡◌, ◌<◌, ◌++◌, ◌∷◌, [], length};

    /// A worker more, the last one.
    pub(crate) fn add(&mut self, worker: Worker<'l, 'a, R, G>)
        requires { length self.old.workers.items < self.old.room }
        ensures workers { self.new.workers.items ≡ self.old.workers.items ++ worker.entry ∷ [] }
        ensures room { self.new.room ≡ self.old.room }
    {
        self.workers.push_reserved(worker);
    }
}

/// So many empty lists of workers, each with room for so many workers.
pub(crate) fn empty<'l, 'a, R: Wait, G: Gate>(
    phase_context: &PhaseContext<'l, 'a, R, G>,
    threads: usize,
    room: usize,
) -> Result<Vec<ThreadWorkers<'l, 'a, R, G>>, NoMemory>
    ensures count { IfOk result (λ by_thread. length by_thread.items ≡ threads) }
    ensures room { IfOk result (λ by_thread. HaveRoom room (map (λ r. (length r.workers.items, r.room)) by_thread.items)) }
{
    let mut by_thread = Vec::with_capacity(phase_context.alloc, threads)?;
    for number in 0..threads {
        let workers = Vec::with_capacity(phase_context.alloc, room)?;
        let ended = Vec::with_capacity(phase_context.alloc, room)?;
        by_thread.push_reserved(ThreadWorkers {
            phase_context: phase_context.copy(),
            number,
            room,
            workers,
            ended,
        });
    }
    Ok(by_thread)
}

/// Each worker in turn makes what it can now.
fn go_round<R: Wait, G: Gate>(workers: &mut [Worker<'_, '_, R, G>]) -> Progress
    ensures { map (λ p. at_lock p.context.lock.now p.context.worker) workers.new ≡ map (λ p. at_lock p.context.lock.now p.context.worker) workers.old }
{
    let mut progress = Progress::Nothing;
    for worker in workers.iter_mut() {
        progress = progress.and(worker.go());
    }
    progress
}

/// After a round in which nothing was done since these events, and so many such rounds before it: whether the thread with a
/// number goes on.
fn rests<R: Wait>(rt: &R, pace: &Pace, number: usize, seen: u64, idle: u32) -> bool {
    if pace.is_refused(number) {
        pace.leave(rt);
        return false;
    }
    if idle < LOOKS {
        yield_now();
        return true;
    }
    pace.rest(rt, seen)
}

/// One round, after so many in which nothing was done: how many these are now, or that the thread ends.
fn round<R: Wait, G: Gate>(
    rt: &R,
    pace: &Pace,
    number: usize,
    workers: &mut [Worker<'_, '_, R, G>],
    idle: u32,
) -> Option<u32>
    ensures { map (λ p. at_lock p.context.lock.now p.context.worker) workers.new ≡ map (λ p. at_lock p.context.lock.now p.context.worker) workers.old }
{
    let seen = pace.seen();
    match go_round(workers) {
        Progress::Something => {
            pace.note(rt);
            Some(0)
        }
        Progress::Missed => {
            yield_now();
            Some(idle)
        }
        Progress::Nothing => {
            if rests(rt, pace, number, seen, idle) {
                Some(idle.saturating_add(1))
            } else {
                None
            }
        }
    }
}

/// Rounds, until the thread ends.
fn rounds<R: Wait, G: Gate>(
    rt: &R,
    pace: &Pace,
    number: usize,
    workers: &mut [Worker<'_, '_, R, G>],
)
    ensures { map (λ p. at_lock p.context.lock.now p.context.worker) workers.new ≡ map (λ p. at_lock p.context.lock.now p.context.worker) workers.old }
{
    let mut idle = 0;
    for _ in rt.forever() {
        match round(rt, pace, number, workers, idle) {
            Some(rounds) => idle = rounds,
            None => return,
        }
    }
}

/// All workers finish, and what they give back stands in their order.
fn finish_all<'l, 'a, R: Wait, G: Gate>(
    mut workers: Vec<Worker<'l, 'a, R, G>>,
    ended: Vec<Ended<'a>>,
) -> Vec<Ended<'a>>
    requires empty { length ended.items ≡ 0 }
    requires room { length workers.items ≤ vec_capacity ended }
    ensures back { Pairwise IsBack (map (λ p. at_lock p.context.lock.now p.context.worker) workers.entry.items) result.items }
    ensures capacity { vec_capacity result ≡ vec_capacity ended.entry }
{
    let Some(worker) = workers.pop() else {
        return ended;
    };
    let mut ended = finish_all(workers, ended);
    ended.push_reserved(worker.finish());
    ended
}

impl<'l, 'a, R: Wait, G: Gate> Job<Back<'a>> for ThreadWorkers<'l, 'a, R, G> {
    ghost use Rattle.std.specs.Prelude.{map};
    ghost use Rattle.thread_workers.specs.ServerWorkers.{IsBack, Pairwise, at_lock};

    ghost keeps = { λ of_thread back. Pairwise IsBack (map (λ p. at_lock p.context.lock.now p.context.worker) of_thread.workers.items) back.ended.items };

    fn run(self) -> Back<'a> {
        let ThreadWorkers {
            phase_context,
            number,
            room: _,
            mut workers,
            ended,
        } = self;
        rounds(phase_context.rt, phase_context.pace, number, &mut workers);
        Back {
            ended: finish_all(workers, ended),
        }
    }
}
