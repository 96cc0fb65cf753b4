//! Layer: net.
//! Job: what a net is, what an entry of its journal is, and what both mean in the laws: one net of the laws of runs, tree by tree.
//! Users: every layer above.
//!
//! It has the real theory of filters, advertisements and notifications, by which the servers route (`Real`, which has
//! no code that runs). The laws of every run of such servers are those of `law_routing`, `law_phases` and
//! `law_machine`, called at `Real`, so no law is stated twice. `test_model` calls each of them, which shows that this
//! can be done.
//!
//! Contracts see records of numbers and lists (`NetParts`, `ClientParts`, `EntryParts`). One definition, `phased_net`,
//! makes the net of `law_phases` from a net's record. `command_of`, `act_of`, `entry_of`, `turn_of` and `deliveries_of`
//! do the same for a command, an act, an entry, a turn and an inbox.
#![tactic(auto)]

mod client;
mod entry;
pub mod law;
mod net;
mod real;
mod turn;

pub use client::{Client, client_name};
pub use entry::Entry;
pub use filter_text::{Command, Delivery, Id, MessageText, Semantics, Sent};
pub use net::Net;
pub use real::{Real, plain};
pub use turn::{Act, Turn};
