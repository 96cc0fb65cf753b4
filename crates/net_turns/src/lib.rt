//! Layer: net, above server_spec.
//! Job: which turns of a network are permitted after a journal, what they make, and the walk schedule, turn by turn.
//! Users: the layers sequential, hierarchy, thread, audit and program.
//!
//! The networks on one thread and on many use these definitions and lemmas. They cite the definitions of `server_spec`,
//! which in `crates.txt` is listed before this crate. The walk is written once for any network that makes turns, of
//! whatever kind: it makes what is left of a phase or of all phases, turn by turn, and finds the messages of a journal
//! by making its turns again. It ends, since a legal run has fewer entries than there may be rounds.
//!
//! A kind of network is what its turns, its walk and its messages are, each with its laws (`Trying`, `Walking`,
//! `Telling`). The kind of peers is in the proofs of this crate, that of a hierarchy in those of `hierarchy_turns`.
#![tactic(auto)]

mod replaying;
mod retelling;
mod trying;
mod turning;
mod walking;

pub use replaying::ReplayFault;
pub use retelling::{retold, turn_of};
pub use turning::Turning;
pub use walking::{walk, walk_phase};
