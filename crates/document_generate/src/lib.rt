//! Layer: document.
//! Job: documents generated from a seed: many clients with filters in a first phase and publications in a second.
//! Users: document_generated, and the layers program and test.
//!
//! The draws are those of a linear congruential generator. `test_program` compares the lines, bytes and MD5 digest of
//! the document of seed 1 with an independent program's.
#![tactic(auto)]

mod document;
mod draws;
mod lines;

pub use document::generate;
