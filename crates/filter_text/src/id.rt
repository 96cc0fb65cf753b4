//! The type of the id of a publication: its publisher and its ordinal.

/// Which publication: its publisher and its ordinal. Ids are ordered by publisher, then by ordinal.
#[derive(Clone, Copy, Debug, PartialEq, Eq, PartialOrd, Ord)]
pub struct Id {
    /// The number of a client, from 1.
    pub publisher: u32,
    /// Its place among all publish commands of that client, from 1.
    pub ordinal: u32,
}
