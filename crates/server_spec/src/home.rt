//! The record of what all clients of a server have together, as contracts see it.
use filter_text::{Adverts, Filters};

/// What all clients of a server have together.
#[derive(Drop)]
pub struct Home {
    /// The filters, in any order.
    pub filters: Filters,
    /// The advertisements, in any order.
    pub adverts: Adverts,
}
