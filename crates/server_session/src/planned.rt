//! The types of what a client's next command does, by numbers.
use filter_text::{Id, Lists};

/// What goes from a set of numbers and what comes to it.
#[derive(Drop)]
pub enum Moved {
    /// The set stays.
    Nothing,
    /// The number comes.
    Added(u32),
    /// These go.
    Withdrawn(Lists<u32>),
}

/// What a client's next command does, by the numbers of the run.
#[derive(Drop)]
pub enum Planned {
    /// The client's filters change.
    Filters(Moved),
    /// The client's advertisements change.
    Adverts(Moved),
    /// A publish that is accepted: its id, and the number of the publication.
    Publish {
        /// The id of the publication.
        id: Id,
        /// Its number.
        publication: u32,
    },
    /// A publish that is refused since no advertisement of the client allows its notice.
    Refused {
        /// Its ordinal among the client's publishes.
        ordinal: u32,
    },
}
