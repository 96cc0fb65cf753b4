//! The type of what a worker gives back when it has ended.
ghost use Rattle.std.specs.Prelude.{◌≡◌, IsFalse, Some};

use net_model::Entry;
use server_core::StepFault;
use thread_cell::Root;
use thread_lock::Pass;
use thread_versions::Viewer;

/// What a worker gives back: its pass, its viewer, and the fault that it met, if any.
#[derive(Drop)]
pub struct Ended<'a> {
    /// Its pass, with nothing in hand.
    pub pass: Pass<Entry, Root<'a>>,
    /// Its viewer.
    pub viewer: Viewer,
    /// Why it ended early, if it did.
    pub fault: Option<StepFault>,
}

/// Whether a fault is out of memory.
pub(crate) fn lacked_memory(fault: &Option<StepFault>) -> bool
    ensures { IsFalse result → fault.now ≡ Some StepFault.NoMemory → ⊥ }
{
    match fault {
        Some(StepFault::NoMemory) => true,
        Some(StepFault::StampsExhausted(_)) => false,
        None => false,
    }
}
