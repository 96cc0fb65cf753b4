//! What a run leaves: its record, and what each client received and was refused.
use crate::records::Record;
use filter_text::Lists;
use net_inbox::Inbox;

/// What a run leaves.
#[derive(Drop)]
pub struct Ran {
    /// What the servers did.
    pub journal: Record,
    /// Of each client the ordinals of its refused publishes.
    pub refused: Vec<Lists<u32>>,
    /// And what was delivered to it.
    pub received: Vec<Inbox>,
}
