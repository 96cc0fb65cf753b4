//! The trait of the gate that a worker passes, at which a test may hold it.

/// Which of the two workers of a server: the one that executes its clients' commands, or the one that
/// receives messages from its links and makes table updates.
#[derive(Clone, Copy, Debug, PartialEq, Eq)]
pub enum WorkerRole {
    Commands,
    Links,
}

/// Where a worker is: before a turn, after a match ahead, after a turn that found its match ahead
/// stale, or after a made turn.
#[derive(Clone, Copy, Debug, PartialEq, Eq)]
pub enum Spot {
    Before,
    Matched,
    Stale,
    Made,
}

/// Which worker passes, in which phase and at which server (both as numbers, servers from 1), and where it is.
#[derive(Clone, Copy, Debug, PartialEq, Eq)]
pub struct Place {
    pub phase: u32,
    pub server: u32,
    pub worker: WorkerRole,
    pub spot: Spot,
}

/// What gets each place that a worker passes. Nothing is promised of a pass but that it returns. Workers in several
/// threads pass one gate, so who starts them asks that it is `Sync` besides.
pub trait Gate {
    /// A worker is at this place, with nothing in hand.
    fn pass(&self, place: Place);
}

/// The program's gate, which lets everybody pass at once.
pub struct NoGate;

impl Gate for NoGate {
    fn pass(&self, _place: Place) {}
}
