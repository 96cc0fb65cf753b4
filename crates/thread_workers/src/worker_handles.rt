//! The type of the handles of a worker while it works.
ghost use Rattle.std.specs.Prelude.{◌≡◌};

use crate::ended::Ended;
use net_model::Entry;
use server_core::StepFault;
use thread_cell::Root;
use thread_lock::Pass;
use thread_versions::Viewer;

/// The pass and the viewer of a worker.
#[derive(Drop)]
pub(crate) struct WorkerHandles<'a> {
    pub(crate) pass: Pass<Entry, Root<'a>>,
    pub(crate) viewer: Viewer,
}

impl<'a> WorkerHandles<'a> {
    /// What the worker gives back.
    pub(crate) fn ended(self, fault: Option<StepFault>) -> Ended<'a>
        ensures { (result.pass ≡ self.entry.pass) × (result.viewer ≡ self.entry.viewer) × (result.fault ≡ fault) }
    {
        let WorkerHandles { pass, viewer } = self;
        Ended {
            pass,
            viewer,
            fault,
        }
    }
}
