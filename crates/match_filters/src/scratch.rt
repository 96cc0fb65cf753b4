//! The type of the memory in which a caller's matches are counted.
use crate::rows::Rows;
use match_cells::Counts;
use std::alloc::Global;

/// Room for the matching of one notice after another. Any matcher may use it, and it is kept from one notice to the next: it
/// grows to what the largest one takes, and then no more memory is wanted.
pub struct Scratch {
    /// For each part that an attribute meets, the filters for which it does.
    pub(crate) rows: Rows,
    /// A number of a filter for each of its patterns of strs that the notice satisfies.
    pub(crate) found: Vec<u32>,
    /// How often each number was found.
    pub(crate) counts: Vec<Counts>,
    /// The filters that are matched.
    pub(crate) words: Vec<u64>,
}

impl Drop for Scratch {
    fn drop(self) {
        let Self {
            rows: _,
            found: _,
            counts: _,
            words: _,
        } = self;
    }
}

impl Scratch {
    /// Room that has not been used. It takes no memory.
    pub fn new(alloc: Global) -> Scratch {
        Scratch {
            rows: Rows::new(alloc),
            found: Vec::new(alloc),
            counts: Vec::new(alloc),
            words: Vec::new(alloc),
        }
    }
}
