//! Layer: server.
//! Job: the core of a server by the numbers of a run: what it holds, its clients' sessions, its clock, and the one body of its step.
//! Users: the layers sequential, hierarchy, thread, program and test.
//!
//! What is held from each interface is kept in rows that are made before the first step. A message carries numbers, and
//! a publication brings its matched row, so a step compares no filters. The caller brings the route of a publication,
//! which must be the interfaces with a matching installed filter (the condition `route`). A route by another table is
//! no legal call. A change that memory doesn't allow is undone by its inverse, which takes no memory.
//!
//! `relinked` builds beside a core the ledger that it would have on other links, with nothing installed. The caller
//! must give it what flows over the new tree (`server_flow`). `relink` exchanges the two without memory, installs what
//! is held, and answers what the core had. A second call undoes the change.
#![tactic(auto)]

mod acting;
mod clients;
mod due;
mod effective;
mod ledger;
mod linking;
mod moving;
mod server;
mod spreading;
mod staging;
mod start;
mod stepped;

pub use acting::{Outgoing, act_on};
pub use clients::Clients;
pub use ledger::Ledger;
pub use server::Core;
pub use spreading::spread;
pub use start::{at_home, interfaces_of};
pub use stepped::{LAST_STAMP, Step, StepFault};
