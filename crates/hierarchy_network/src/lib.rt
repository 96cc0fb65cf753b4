//! Layer: hierarchy.
//! Job: all servers of a hierarchy on one thread, with the queues of its links; its journal is a legal run, whatever turns are asked for.
//! Users: program_sequential.
//!
//! Server 1 is at the top. Filters are sent to the master alone; notifications always go up to the master, and go down
//! by filters. The core of a server has the same parts as among peers: the ledger and the clients of `server_core`. Its
//! semantics decides which publishes are refused, and nothing else.
//!
//! `HierNetwork` is the `RuledNetwork` of `sequential_network` over servers of this kind, so the links, the journal,
//! the sessions and the turns are those of the network of peers. Later phases begin with raised clocks.
#![tactic(auto)]

mod acting;
mod clocks;
mod forwarding_server;
mod network;
mod server;

pub use forwarding_server::ForwardingServer;
pub use network::HierNetwork;
pub use server::HierarchyCore;
