//! Layer: document.
//! Job: the input document: read whole into a net, or refused with its first line at fault and the first fault there.
//! Users: document_format, and the layers output, audit, program and test.
//!
//! It also cuts an input at the first line that is exactly a given word. `need`, `want` and `LineFault` are used by
//! `output_patterns` too.
//!
//! The definition is one fold over numbered lines (`document_of`), with one rule for each kind of line, whose tests are
//! in the order of the page FORMATS. `first_fault` says that the reported line is the one behind lines that all pass.
//! `all_taken` says what the lines and the end leave. Lines are found by the kit's search of a byte (`memchr`), names
//! by their hash (`indexmap`), an edge by the labels of its ends, neighbours in some tree by a table of pairs.
#![tactic(auto)]

mod answer;
mod block;
mod clients;
mod cut;
mod draft;
mod fault;
pub mod law;
mod names;
mod near;
mod net;
mod network;
mod places;
mod read;
mod schedule;
mod scripts;
mod splitting;
mod state;
mod tally;
mod trees;
mod version;
mod words;

pub use answer::{need, want};
pub use cut::{next_line, next_word};
pub use fault::{Fault, InputFault, LineFault};
pub use read::{MOST_BYTES, read_net};
pub use splitting::{Cut, cut_at};
pub use words::two;
