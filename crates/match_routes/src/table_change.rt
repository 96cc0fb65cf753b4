//! One change of a forwarding table.

/// A change: a number is installed from an interface from now on, or no longer.
#[derive(Clone, Copy, Debug, PartialEq, Eq)]
pub enum TableChange {
    /// The number is installed from the interface from now on.
    Put {
        /// The number of a filter.
        number: u32,
        /// The interface: a neighbour's number, or 64 and the client's number.
        interface: u32,
    },
    /// The number is no longer installed from the interface.
    Take {
        /// The number of a filter.
        number: u32,
        /// The interface.
        interface: u32,
    },
}
