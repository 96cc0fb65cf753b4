//! Layer: net.
//! Job: journals of runs: what the servers did, in the order of the turns; their merge, and what a run leaves.
//! Users: the layers sequential, thread, program and test.
//!
//! All that is promised of a run is said of its journal. A caller who shows the journal keeps its entries. Another one
//! drops each entry when the next one comes; then its journal exists in proofs alone, but for the last entry. Contracts
//! see the same list of entries either way. With several threads each server has its own journal, and their merge is
//! the journal of the run.
//!
//! `make_room` fails only for lack of memory. `len` counts as far as 64 bits do, which is farther than any legal run goes.
//! `merge` requires that journal i is of server i + 1 and that its stamps rise. It moves entries and copies none: it puts
//! the journals one after the other and sorts them by stamp with the standard library's stable sort. That sort finds the
//! stretches that rise and merges the long ones two at a time. So the time is in the order of the entries times the
//! logarithm of the number of journals, which is neither proved nor tested. Where entries pass, contracts see the merge as
//! a list made by insertion (`merged_of`).
#![tactic(auto)]

mod journal;
mod journals;
pub mod law;
mod past;
mod ran;
mod records;

pub use journal::Journal;
pub use journals::merge;
pub use ran::Ran;
pub use records::Record;
