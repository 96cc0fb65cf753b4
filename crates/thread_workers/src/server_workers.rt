//! The types of the workers of one lock, with their viewers and passes.
use crate::worker_handles::WorkerHandles;
use net_model::Entry;
use thread_cell::Root;
use thread_lock::Pass;
use thread_versions::Viewer;

/// The viewers of a cell's publisher, one for each worker.
#[derive(Drop)]
pub struct Viewers {
    /// Of who executes commands.
    pub commands: Viewer,
    /// Of who takes from neighbours.
    pub links: Viewer,
}

/// What stays of the passes of a server's lock while its workers have theirs: one, with room for the others.
#[derive(Drop)]
pub(crate) struct SparePasses<'a> {
    pub(crate) passes: Vec<Pass<Entry, Root<'a>>>,
}

/// What the workers of a server are given, and what stays.
#[derive(Drop)]
pub(crate) struct ServerWorkers<'a> {
    pub(crate) server: u32,
    pub(crate) spare: SparePasses<'a>,
    pub(crate) commands: WorkerHandles<'a>,
    pub(crate) links: WorkerHandles<'a>,
}

/// One for each worker of a server.
#[derive(Drop)]
pub(crate) struct Both<T> {
    pub(crate) commands: T,
    pub(crate) links: T,
}
