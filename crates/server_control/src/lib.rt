//! Layer: server.
//! Job: what a server holds from its interfaces of a run's filters and advertisements, by number, and how a change alters what it sends.
//! Users: server_flow and server_core, and the layers sequential and thread.
//!
//! A control is made once, with all its memory, over the rows that say which item covers which and which filter
//! overlaps which advertisement; a change takes no memory and can't fail. The overlaps of a link are computed anew from
//! rows where the advertisements of that link change. `unite` gives exactly the union of a set of rows (`IsUnion`).
//!
//! A `HeldLink` is what is held from one interface: a row of filters and a row of advertisements, with a reference to
//! the tables of the run; contracts see the filters and advertisements that its numbers represent. A server gives one
//! out for each link, and takes one for each where a new tree comes into force.
#![tactic(auto)]

mod control;
mod held;
mod offering;

pub use control::Control;
pub use held::HeldLink;
pub use offering::unite;
