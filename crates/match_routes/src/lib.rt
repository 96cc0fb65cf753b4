//! Layer: match.
//! Job: the forwarding table of a server: from matched filters, by their numbers, to the interfaces to which a notification goes.
//! Users: the layers server, sequential, hierarchy, thread, output and test.
//!
//! All filters of a run are numbered before it begins, and what a notification matches is found once, as a set of
//! numbers. A server then only looks up the interfaces that have one of these numbers installed. Contracts see a
//! forwarding table as its width, its interfaces and the rising list of its pairs of an interface and a number, so the
//! definitions of `base` and their laws hold of it.
//!
//! The pairs are kept as a `Grid`, with a row of places of interfaces for each number. `output_flood` uses the same
//! type with places of clients as its interfaces.
#![tactic(auto)]

mod forwarding;
pub mod law;
mod places;
mod route;
mod table_change;

pub use forwarding::Forwarding;
pub use places::is_rising;
pub use route::Route;
pub use table_change::TableChange;
