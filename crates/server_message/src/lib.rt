//! Layer: server.
//! Job: the one message: what is sent from one server to another over a link.
//! Users: server_core, and the layers sequential, hierarchy and thread.
//!
//! A message is a publication or a change of filters or of advertisements, by the numbers of a run. It has no text
//! while it is on a link. It refers to the tables of its run, and contracts see what its numbers represent. Where a
//! step sends messages, `sent_by` says which. Numbers alone don't say of which run they are; so the lanes of `run`
//! carry `StampedLoad`, and whoever receives one asks `is_of`.
#![tactic(auto)]

mod load;
mod message;
mod numbers;
mod set_change;
mod stamped;

pub use load::Load;
pub use message::{Message, Sending};
pub use set_change::SetChange;
pub use stamped::StampedLoad;
