//! The types of what flooding owes and allows: a row for each publication and client.
use filter_text::{Id, Lists};

/// A publication that is allowed to a client: a filter that matches it is in the client's list at some moment of the
/// publication's phase.
#[derive(Clone, Copy, Debug, PartialEq, Eq)]
pub struct OwedRow {
    /// The publication.
    pub id: Id,
    /// Whether it is owed: one such filter is there at every moment of the phase, and under advertisement semantics so is
    /// one advertisement that allows it, in the publisher's list.
    pub must: bool,
}

/// What flooding brings to the clients of a net.
#[derive(Drop)]
pub struct Owed {
    /// For each client, in the order of the net, the publications that are allowed to it, by publisher and ordinal.
    pub rows: Vec<Lists<OwedRow>>,
    /// For each client the ordinals of its refused publishes, rising.
    pub refused: Vec<Lists<u32>>,
}
