//! The type of a client's command by numbers.

/// A client's command: its filter, advertisement or publication has this number in the catalogue.
#[derive(Clone, Copy, Debug, PartialEq, Eq)]
pub enum NumberedCommand {
    /// Adds the filter to the client's.
    Subscribe(u32),
    /// Withdraws the client's filters that the filter covers.
    Unsubscribe(u32),
    /// Adds the advertisement to the client's.
    Advertise(u32),
    /// Withdraws the client's advertisements that the advertisement covers.
    Unadvertise(u32),
    /// Publishes the publication.
    Publish(u32),
}
