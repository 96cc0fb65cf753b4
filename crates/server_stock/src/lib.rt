//! Layer: server.
//! Job: what the interfaces of a server hold of the items of an order, and what the server sends on its links.
//! Users: server_control, server_session, server_flow and server_core, and the thread layer.
//!
//! Its items are filters or advertisements: `server_control` has one stock of each. `IsAnnounced` says what is
//! announced for a link.
#![tactic(auto)]

mod holders;
mod sides;
mod stock;

pub use stock::Stock;
