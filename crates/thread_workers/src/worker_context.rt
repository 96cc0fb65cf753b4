//! What a worker is given, and how it takes the cell.
ghost use Rattle.thread_workers.specs.WorkerHandles.{IsLockFor};

use crate::hand::{make_ahead, make_turns};
use crate::made::Made;
use crate::pace::Pace;
use crate::tried::Tried;
use crate::worker_handles::WorkerHandles;
use crate::worker_state::{Progress, WorkerState, end_of};
use base::NoMemory;
use base_devices::{Gate, Place, Spot, WorkerRole};
use net_model::{Act, Entry};
use net_tables::Tables;
use server_core::StepFault;
use std::alloc::Global;
use std::sync::Wait;
use thread_cell::{Cell, Root};
use thread_lock::{Pass, TurnLock};
use thread_versions::{Ahead, Viewer, match_ahead};

// So often in a row a worker takes its cell before the next worker of its thread has its turn.
const RECEPTIONS: u32 = 16;

/// What a worker is given that stays: the tables of its net, its server, the phase, which worker it is, its lock and the gate.
#[derive(Drop)]
pub(crate) struct WorkerContext<'l, 'a, R: Wait, G: Gate> {
    pub(crate) rt: &'l R,
    pub(crate) alloc: Global,
    pub(crate) tables: &'l Tables<'a>,
    pub(crate) server: u32,
    pub(crate) phase: u32,
    pub(crate) worker: WorkerRole,
    pub(crate) lock: &'l TurnLock<Cell<'a>>,
    pub(crate) gate: &'l G,
    pub(crate) pace: &'l Pace,
    ghost lock_for: { IsLockFor tables.now server phase lock.now },
}

impl<'l, 'a, R: Wait, G: Gate> WorkerContext<'l, 'a, R, G> {
    ghost use Rattle.std.specs.Prelude.{◌≡◌, ℕ, true, false, IfOk, IfSome, IfNone, IsErrOf};
    ghost use mathlib.Core.List.{IsPrefix};
    ghost use Rattle.thread_lock.specs.Passes.{IsPassOf, IsSamePass, has_in_hand, seen_by};
    ghost use Rattle.thread_versions.specs.Ends.{IsAheadBy};
    ghost use Rattle.thread_cell.specs.Asked.{Suits};
    ghost use Rattle.thread_workers.specs.WorkerHandles.{AreHandles, AreLater, CanMatch, IsOfWorker, IsWorkerState, IsTried, lock_root};
    ghost use Rattle.thread_workers.specs.Journals.{IsWornBy};

    /// Passes the gate at a spot.
    fn pass_gate(&self, spot: Spot) {
        self.gate.pass(Place {
            phase: self.phase,
            server: self.server,
            worker: self.worker,
            spot,
        });
    }

    /// Passes the gate after the turns that were made with the cell in hand, once for each.
    fn pass_made(&self, made: &Made) {
        if made.stale {
            self.pass_gate(Spot::Stale);
        }
        for _ in 0..made.turns {
            self.pass_gate(Spot::Made);
        }
    }

    /// Passes the gate, and takes the cell where the other pass hasn't it in hand.
    fn take(&self, pass: &mut Pass<Entry, Root<'a>>) -> Option<Cell<'a>>
        requires own { IsPassOf (λ c. c.root) self.now.lock.now pass.old }
        requires free { has_in_hand pass.old ≡ false }
        ensures own { IsPassOf (λ c. c.root) self.now.lock.now pass.new × IsSamePass pass.old pass.new }
        ensures found { IfSome result (λ c. (c.root ≡ lock_root self.now.lock.now) × IsPrefix (seen_by pass.old) c.journal) }
        ensures taken { IfSome result (λ c. (seen_by pass.new ≡ c.journal) × (has_in_hand pass.new ≡ true)) }
        ensures missed { IfNone result ((seen_by pass.new ≡ seen_by pass.old) × (has_in_hand pass.new ≡ false)) }
    {
        self.pass_gate(Spot::Before);
        self.lock.try_take(pass)
    }

    /// Matches a publication ahead, with nothing in hand, and passes the gate.
    pub(crate) fn match_publication(
        &self,
        handles: &mut WorkerHandles<'a>,
        number: u32,
    ) -> Result<Ahead, NoMemory>
        requires handles { AreHandles self.now.lock.now handles.old }
        requires known { CanMatch (lock_root self.now.lock.now) number }
        ensures handles { AreHandles self.now.lock.now handles.new }
        ensures later { AreLater handles.old handles.new }
        ensures pass { handles.new.pass ≡ handles.old.pass }
        ensures ahead { IfOk result (λ a. IsAheadBy (lock_root self.now.lock.now).viewer.value a) }
    {
        let matched = self.tables.matched(number);
        let ahead = match_ahead(self.alloc, self.rt, &mut handles.viewer, &matched)?;
        self.pass_gate(Spot::Matched);
        Ok(ahead)
    }

    /// What comes after turns with the cell in hand: the next publication is matched ahead, or the worker has ended.
    fn follow(
        &self,
        handles: &mut WorkerHandles<'a>,
        came: Result<Tried, StepFault>,
        made: &Made,
    ) -> (WorkerState, Progress)
        requires handles { AreHandles self.now.lock.now handles.old }
        requires tried { IfOk came (λ tried. IsTried self.now.worker tried (lock_root self.now.lock.now) (seen_by handles.old.pass)) }
        requires worn { (s : ℕ) → self.now.worker ≡ WorkerRole.Commands → IsErrOf came (StepFault.StampsExhausted s)
            → IsWornBy s (lock_root self.now.lock.now) (seen_by handles.old.pass) }
        ensures handles { AreHandles self.now.lock.now handles.new }
        ensures later { AreLater handles.old handles.new }
        ensures state { IsWorkerState self.now.worker (lock_root self.now.lock.now) (seen_by handles.new.pass) result.0 }
    {
        self.pass_made(made);
        match came {
            Ok(Tried::Done) => (WorkerState::Ended(None), Progress::Something),
            Ok(Tried::Ahead(what, number)) => match self.match_publication(handles, number) {
                Ok(ahead) => (WorkerState::Matched(what, ahead), Progress::Something),
                Err(_) => (
                    WorkerState::Ended(Some(StepFault::NoMemory)),
                    Progress::Something,
                ),
            },
            Ok(Tried::Turned(_)) => (WorkerState::Free, Progress::by(made)),
            Err(fault) => (
                WorkerState::Ended(end_of(self.worker, fault)),
                Progress::Something,
            ),
        }
    }

    /// Turns of a worker that has nothing matched, where the cell can be had.
    fn turn_free(&self, handles: &mut WorkerHandles<'a>, at: &mut u32) -> (WorkerState, Progress)
        requires { AreHandles self.now.lock.now handles.old }
        ensures handles { AreHandles self.now.lock.now handles.new }
        ensures later { AreLater handles.old handles.new }
        ensures state { IsWorkerState self.now.worker (lock_root self.now.lock.now) (seen_by handles.new.pass) result.0 }
    {
        let Some(mut cell) = self.take(&mut handles.pass) else {
            return (WorkerState::Free, Progress::Missed);
        };
        let mut made = Made::none();
        let came = make_turns(self.rt, &mut cell, self.server, self.worker, at, &mut made);
        self.lock.put(&mut handles.pass, cell);
        self.follow(handles, came, &made)
    }

    /// Turns of a worker that has a publication matched, which come with that one, where the cell can be had.
    fn turn_matched(
        &self,
        handles: &mut WorkerHandles<'a>,
        at: &mut u32,
        what: Act,
        ahead: Ahead,
    ) -> (WorkerState, Progress)
        requires handles { AreHandles self.now.lock.now handles.old }
        requires suits { Suits what (lock_root self.now.lock.now) }
        requires ahead { IsAheadBy (lock_root self.now.lock.now).viewer.value ahead }
        requires own { IsOfWorker self.now.worker what }
        ensures handles { AreHandles self.now.lock.now handles.new }
        ensures later { AreLater handles.old handles.new }
        ensures state { IsWorkerState self.now.worker (lock_root self.now.lock.now) (seen_by handles.new.pass) result.0 }
    {
        let Some(mut cell) = self.take(&mut handles.pass) else {
            return (WorkerState::Matched(what, ahead), Progress::Missed);
        };
        let mut made = Made::none();
        let came = make_ahead(
            self.rt,
            &mut cell,
            self.server,
            self.worker,
            &mut handles.viewer,
            what,
            &ahead,
            at,
            &mut made,
        );
        self.lock.put(&mut handles.pass, cell);
        self.follow(handles, came, &made)
    }

    /// Turns with the cell in hand, where it can be had and the worker hasn't ended.
    fn step(
        &self,
        handles: &mut WorkerHandles<'a>,
        at: &mut u32,
        state: WorkerState,
    ) -> (WorkerState, Progress)
        requires handles { AreHandles self.now.lock.now handles.old }
        requires state { IsWorkerState self.now.worker (lock_root self.now.lock.now) (seen_by handles.old.pass) state }
        ensures handles { AreHandles self.now.lock.now handles.new }
        ensures later { AreLater handles.old handles.new }
        ensures state { IsWorkerState self.now.worker (lock_root self.now.lock.now) (seen_by handles.new.pass) result.0 }
    {
        match state {
            WorkerState::Free => self.turn_free(handles, at),
            WorkerState::Matched(what, ahead) => self.turn_matched(handles, at, what, ahead),
            WorkerState::Ended(fault) => (WorkerState::Ended(fault), Progress::Nothing),
        }
    }

    /// The turns that it can make now, without waiting for the cell. It takes the cell in hand a bounded number of times, and
    /// in between matches a publication ahead where one comes next.
    pub(crate) fn go(
        &self,
        handles: &mut WorkerHandles<'a>,
        at: &mut u32,
    ) -> (WorkerState, Progress)
        requires { AreHandles self.now.lock.now handles.old }
        ensures handles { AreHandles self.now.lock.now handles.new }
        ensures later { AreLater handles.old handles.new }
        ensures state { IsWorkerState self.now.worker (lock_root self.now.lock.now) (seen_by handles.new.pass) result.0 }
    {
        let mut state = WorkerState::Free;
        let mut progress = Progress::Nothing;
        for _ in 0..RECEPTIONS {
            let (next, now) = self.step(handles, at, state);
            state = next;
            progress = progress.and(now);
            if now != Progress::Something {
                return (state, progress);
            }
        }
        (state, progress)
    }
}
