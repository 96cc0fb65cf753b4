//! The record of what is held from a link, as contracts see it.
use filter_text::{Adverts, Filters};

/// A link with what is to be held from it, as contracts see it.
#[derive(Drop)]
pub struct HeldLink {
    /// The number of the link.
    pub link: u32,
    /// The filters, in canonical order.
    pub filters: Filters,
    /// The advertisements, in canonical order.
    pub adverts: Adverts,
}
