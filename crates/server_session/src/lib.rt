//! Layer: server.
//! Job: a client's session at its server by the numbers of a run: its own sets as rows, what its next command does, its inbox.
//! Users: server_core, and the layers sequential, hierarchy and thread.
//!
//! A script is read by the numbers of its filters, advertisements and publications, so a withdrawal finds what it
//! covers in one row, and no filters are compared. Only `start`, `plan` and `room` take memory. Where that is refused,
//! the session is as before.
#![tactic(auto)]

mod own;
mod planned;
mod publishing;
mod script;
mod session;

pub use planned::{Moved, Planned};
pub use session::Session;
