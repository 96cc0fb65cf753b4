//! The types of a turn that is asked for, and of an act that a server did.

/// A turn of a schedule.
#[derive(Clone, Copy, Debug, PartialEq, Eq)]
pub enum Turn {
    /// The next command of a client, by its number from 1.
    Command(u32),
    /// A server receives the next message from a neighbour.
    Receive { server: u32, from: u32 },
    /// A server installs its pending table update.
    TableUpdate(u32),
}

/// What a server does in an entry of a journal.
#[derive(Clone, Copy, Debug, PartialEq, Eq)]
pub enum Act {
    /// The next command of a client, by its number from 1.
    Command(u32),
    /// It receives the next message from a neighbour.
    Receive(u32),
    /// It installs the pending table update.
    TableUpdate,
}
