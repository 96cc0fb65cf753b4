//! What a client's next command does, as contracts see it.
use filter_text::{Adverts, Filters, Id};
use filter_types::Notice;

/// What a client's next command does.
#[derive(Drop)]
pub enum Planned {
    /// The client's filters change: `out` go and `add` come.
    Subs { out: Filters, add: Filters },
    /// The client's advertisements change: `out` go and `add` come.
    Advs { out: Adverts, add: Adverts },
    /// A publish that is accepted, under its id.
    Publish { id: Id, notice: Notice },
    /// A publish that is refused since no advertisement of the client allows its notice.
    Refused { ordinal: u32 },
}
