//! Layer: sequential.
//! Job: all servers on one thread, with the queues of links; the journal is a legal run of the net, whatever turns are asked for.
//! Users: thread_outcome, and the layers hierarchy, audit and program.
//!
//! It has the cores of its servers with their installed forwarding tables, and the links between them. The tables of
//! the run are made before it; a turn compares no filters and writes no text: `last_told` and `retell` write the texts
//! of messages from the tables.
//!
//! `RuledNetwork` is written once for every kind of network; `Network` is the one of peers. Only `replay` belongs to
//! that kind alone. Its clauses name the rules of the kind (`Ruled`: `trying`, `walking`, `telling`, `ruling`). A kind
//! makes its steps (`Server`), begins and begins later phases (`Networked`), and proves the laws that the turns go by
//! (`laws`).
//!
//! A stamp can't reach its bound, since the laws bound it by what the scripts and trees allow. So no call has an answer
//! for it. Where a turn begins a phase with another tree and memory runs out, either each server is set on the new tree
//! or none is. Entries are in memory only where they are to be shown (`Network<Kept>`); otherwise they exist in proofs
//! alone (`Network<Passed>`). The page FIGURES has time and memory.
#![tactic(auto)]

mod begin;
mod calm;
mod forwarding_server;
mod inboxes;
mod keeping;
mod links;
mod making;
mod network;
mod queue;
mod relinking;
mod replaying;
mod retelling;
mod routing;
mod ruled;
mod scheduled;
mod server;
mod servers;
mod stamped_message;
mod telling;
mod texts;
mod walking;

pub use forwarding_server::{ForwardingServer, unexhausted, unpublished};
pub use keeping::{Keeping, Kept, Passed};
pub use links::Links;
pub use network::{Network, RuledNetwork};
pub use retelling::retell;
pub use routing::{route, routed};
pub use ruled::{Networked, Ruled};
pub use server::{Server, greatest_clock};
pub use servers::Servers;
pub use stamped_message::StampedMessage;
