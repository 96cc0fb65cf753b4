//! The type of where a set of many stands.

/// Where the members of a set are listed, or where the words that show them stand.
#[derive(Clone, Copy, Debug, PartialEq, Eq)]
pub(crate) enum Place {
    /// The members are listed from one place of the lists to another.
    Listed {
        /// Where the list begins.
        from: usize,
        /// Where it ends.
        to: usize,
    },
    /// Words from one place to another show the members.
    Shown {
        /// Where the words begin.
        from: usize,
        /// Where they end.
        to: usize,
    },
}
