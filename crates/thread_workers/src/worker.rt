//! A worker with all that it needs, and its rounds.
ghost use Rattle.thread_workers.specs.WorkerHandles.{AreHandles};

use crate::ended::{Ended, lacked_memory};
use crate::worker_context::WorkerContext;
use crate::worker_handles::WorkerHandles;
use crate::worker_state::{Progress, WorkerState};
use base_devices::{Gate, WorkerRole};
use server_core::StepFault;
use std::sync::Wait;
use std::thread::yield_now;

/// A worker, with its handles, the client or the place where it goes on, whether it has ended, and the
/// fault that it then met.
#[derive(Drop)]
pub(crate) struct Worker<'l, 'a, R: Wait, G: Gate> {
    pub(crate) context: WorkerContext<'l, 'a, R, G>,
    pub(crate) handles: WorkerHandles<'a>,
    pub(crate) at: u32,
    pub(crate) over: bool,
    pub(crate) fault: Option<StepFault>,
    ghost free: { AreHandles context.lock.now handles },
}

impl<'l, 'a, R: Wait, G: Gate> Worker<'l, 'a, R, G> {
    ghost use Rattle.std.specs.Prelude.{◌≡◌};
    ghost use Rattle.base_devices.specs.declared.gate.WorkerRole.TheVariants.{Commands};
    ghost use Rattle.thread_workers.specs.WorkerHandles.{AreLater};
    ghost use Rattle.thread_workers.specs.Work.{Keeps};

    /// The turns that it can make now, without waiting for the cell.
    pub(crate) fn go(&mut self) -> Progress
        ensures context { self.new.context ≡ self.old.context }
        ensures later { AreLater self.old.handles self.new.handles }
    {
        if self.over {
            return Progress::Nothing;
        }
        let (state, progress) = self.context.go(&mut self.handles, &mut self.at);
        if let WorkerState::Ended(fault) = state {
            self.over = true;
            self.fault = fault;
        }
        progress
    }

    /// A worker for commands goes on until it has ended.
    fn end(self) -> Ended<'a>
        requires { self.context.worker ≡ Commands }
        ensures { Keeps self.entry.context.worker self.entry.handles.pass self.entry.handles.viewer result }
    {
        let Worker {
            context,
            mut handles,
            mut at,
            over: _,
            fault: _,
        } = self;
        for _ in context.rt.forever() {
            match context.go(&mut handles, &mut at) {
                (WorkerState::Ended(fault), _) => return handles.ended(fault),
                (_, Progress::Something) => {}
                (_, _) => yield_now(),
            }
        }
        unreachable!()
    }

    /// Gives back its handles. One for commands looks again whether none is left, and goes on where some are.
    pub(crate) fn finish(self) -> Ended<'a>
        ensures { Keeps self.entry.context.worker self.entry.handles.pass self.entry.handles.viewer result }
    {
        if lacked_memory(&self.fault) {
            return self.handles.ended(Some(StepFault::NoMemory));
        }
        match self.context.worker {
            WorkerRole::Commands => self.end(),
            WorkerRole::Links => self.handles.ended(None),
        }
    }
}
