//! What all workers of a phase are given together.
use crate::pace::Pace;
use base_devices::Gate;
use net_tables::Tables;
use std::alloc::Global;
use std::sync::Wait;

/// What all workers of a phase are given.
#[derive(Drop)]
pub(crate) struct PhaseContext<'l, 'a, R: Wait, G: Gate> {
    pub(crate) rt: &'l R,
    pub(crate) alloc: Global,
    pub(crate) tables: &'l Tables<'a>,
    pub(crate) phase: u32,
    pub(crate) gate: &'l G,
    pub(crate) pace: &'l Pace,
}

impl<'l, 'a, R: Wait, G: Gate> PhaseContext<'l, 'a, R, G> {
    /// The same once more.
    pub(crate) fn copy(&self) -> PhaseContext<'l, 'a, R, G> {
        PhaseContext {
            rt: self.rt,
            alloc: self.alloc,
            tables: self.tables,
            phase: self.phase,
            gate: self.gate,
            pace: self.pace,
        }
    }
}
