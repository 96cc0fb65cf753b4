//! What a question names that the document doesn't have.

/// What a question names that isn't there.
#[derive(Clone, Copy, Debug, PartialEq, Eq)]
pub enum Unknown {
    /// The client.
    Client,
    /// The publisher.
    Publisher,
    /// The publication of this number.
    Number,
}
