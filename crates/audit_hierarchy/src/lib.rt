//! Layer: audit.
//! Job: hierarchies as a kind of networks whose runs `audit` of `audit_verdict` audits.
//! Users: program_sequential.
//!
//! The audit itself is written once, for any kind. Here is what it asks of a kind: that the network makes the runs of
//! the kind, that a turn has one entry or is barred, and that each output of a legal, drained run is confirmed, by
//! whichever net of its document. A tree may represent the way to the top in several ways; masters are the same.
#![tactic(auto)]

mod kind;

pub use kind::Hierarchies;
