//! The type of the commands that a client gives to its server.
use filter_types::{Advert, Filter, Notice};

/// A client's command.
#[derive(Drop)]
pub enum Command {
    /// Adds a filter to the client's.
    Subscribe(Filter),
    /// Withdraws the client's filters that this one covers.
    Unsubscribe(Filter),
    /// Adds an advertisement to the client's.
    Advertise(Advert),
    /// Withdraws the client's advertisements that this one covers.
    Unadvertise(Advert),
    /// Publishes a notice.
    Publish(Notice),
}
