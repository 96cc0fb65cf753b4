//! What came of a step that a cell was asked for.

/// What came of a step that a cell was asked for: a client's next command, a message of a neighbour, or a table update.
#[derive(Clone, Copy, Debug, PartialEq, Eq)]
pub enum Turned {
    /// The step was made.
    Made,
    /// The step was made, and the route that was matched ahead for its notice was out of date.
    Stale,
    /// There was nothing to do.
    Idle,
}
