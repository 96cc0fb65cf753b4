//! The type of the state of a worker while it doesn't have its cell in hand.
ghost use Rattle.std.specs.Prelude.{◌≡◌, ℕ, List};
ghost use Rattle.net_model.specs.Parts.{EntryParts};
ghost use Rattle.thread_cell.specs.declared.held.Root.{Root};
ghost use Rattle.thread_workers.specs.Journals.{IsWornBy};
ghost use Rattle.thread_workers.specs.Work.{EndsWith};

use crate::made::Made;
use base_devices::WorkerRole;
use net_model::Act;
use server_core::StepFault;
use thread_versions::Ahead;

/// The state of a worker while it has not got its cell in hand.
#[derive(Drop)]
pub(crate) enum WorkerState {
    /// Nothing is matched.
    Free,
    /// This turn comes next, whose publication is matched ahead.
    Matched(Act, Ahead),
    /// It has ended, by the fault that it met, if any.
    Ended(Option<StepFault>),
}

/// What came of a worker's try.
#[derive(Clone, Copy, Debug, PartialEq, Eq)]
pub(crate) enum Progress {
    /// It did something.
    Something,
    /// There is nothing to do.
    Nothing,
    /// The cell is in use.
    Missed,
}

impl Progress {
    /// Whether turns were made.
    pub(crate) fn by(made: &Made) -> Progress {
        if made.turns > 0 {
            Progress::Something
        } else {
            Progress::Nothing
        }
    }

    /// Of two workers.
    pub(crate) fn and(self, other: Progress) -> Progress {
        match (self, other) {
            (Progress::Something, _) | (_, Progress::Something) => Progress::Something,
            (Progress::Missed, _) | (_, Progress::Missed) => Progress::Missed,
            (Progress::Nothing, Progress::Nothing) => Progress::Nothing,
        }
    }
}

/// How a worker ends by a fault. That no stamp is left is none for links.
pub(crate) fn end_of(worker: WorkerRole, fault: StepFault) -> Option<StepFault>
    ensures { (root : Root) (seen : List EntryParts) → ((s : ℕ) → worker ≡ WorkerRole.Commands → fault ≡ StepFault.StampsExhausted s → IsWornBy s root seen)
        → EndsWith worker root seen result }
{
    match (worker, fault) {
        (WorkerRole::Links, StepFault::StampsExhausted(_)) => None,
        (_, fault) => Some(fault),
    }
}
