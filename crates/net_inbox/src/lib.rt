//! Layer: net.
//! Job: what clients receive: the publications of a run as deliveries, each once in memory, and inboxes of their numbers.
//! Users: the layers net, server, sequential, hierarchy, thread, output, audit and program.
//!
//! A publication goes to many clients. So its id and the line that is printed of it, with its text, stand once, in
//! `Deliveries`, which those who own it share; an inbox has the numbers of its deliveries, four bytes each. Contracts see
//! the deliveries.
#![tactic(auto)]

mod deliveries;
mod inbox;
mod kept;

pub use deliveries::{Deliveries, DeliveriesBuilder};
pub use inbox::{Inbox, Received};
