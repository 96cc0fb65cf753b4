//! Layer: output.
//! Job: the texts that are printed: written once into one vector, or line by line into a sink.
//! Users: output_patterns, audit_verdict and program_sequential.
//!
//! `trace_text`, `check_text` and `summary_text` are made in one vector. `put_deliveries` and `Flooded::put` write line
//! by line into a sink. `check_text` is of a sound net.
#![tactic(auto)]

mod commands;
mod counting;
mod deliveries;
mod flooded;
pub mod law;
mod lines;
mod ordering;
mod publish;
mod sorted;
mod summary;
mod trace;
mod writing;

pub use commands::{CommandCounts, count_commands};
pub use counting::{push_total, total_received, total_refused};
pub use deliveries::push_delivery;
pub use flooded::Flooded;
pub use lines::{push_client, push_refused};
pub use ordering::ordered;
pub use summary::{check_text, summary_text};
pub use trace::{push_trace_entry, push_trace_head, trace_text};
pub use writing::put_deliveries;
