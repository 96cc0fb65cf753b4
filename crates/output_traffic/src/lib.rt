//! Layer: output.
//! Job: what each link of a net carried in a run, beside what plain flooding would have sent over it: definition, laws, text and graph.
//! Users: program_sequential.
//!
//! The text and the graph are written piece by piece. A count stops at 2^32 - 1, which no legal run of a net reaches
//! (`lemma_beside_flooding`). An independent program made the counts with which `test_program` compares those of small
//! documents.
#![tactic(auto)]

mod carried;
mod counts;
mod directions;
mod flood;
mod graph;
pub mod law;
mod line;
mod links;
mod loads;
mod text;
mod traffic;

pub use carried::Carried;
pub use traffic::Traffic;
