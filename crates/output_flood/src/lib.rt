//! Layer: output.
//! Job: what flooding owes and allows to the clients of a net, by their scripts alone: no server occurs.
//! Users: output_report, audit_verdict and program_sequential.
//!
//! Accepted, owed and allowed are the definitions of `law_routing` (`IsPublication`, `IsOwed`, `IsAllowed`) at the net
//! of each phase. `must_may` goes through the publications by phase. Which filters one matches is found once; the rows
//! of the clients' places for these numbers are joined. From phase to phase only the numbers that come or go are moved.
//! How many rows each client gets is counted first.
#![tactic(auto)]

mod adverts;
mod filters;
mod flood;
mod meeting;
mod owed;
mod phase;
mod publication;
mod rows;
mod tables;

pub use flood::must_may;
pub use owed::{Owed, OwedRow};
