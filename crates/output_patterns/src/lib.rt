//! Layer: output.
//! Job: patterns: where sequences of filters occur one after another in the notifications that a client received.
//! Users: the layers program and test.
//!
//! An occurrence of a pattern's steps is a rising list of places, one for each step, whose notifications match the
//! steps. Of the occurrences from a place the first has the least places. All occurrences are the first from place 1,
//! then the first from the place after its end, and so on. Wherever an occurrence is found from a place on, a first one
//! is, and one pass finds all (`occurrence_law`); `text_law` ties the printed text to these. A detector finds them as
//! the notifications come.
//!
//! The crate also reads the input of a document with patterns whole into the net and the patterns, or refuses it with
//! its first fault, and writes the text of what was found, line by line, into a sink. A step is read as a `subscribe`
//! by the code that reads one. The rows of `test_documents` try each kind of fault at its line, limits, and an input
//! cut at each byte.
#![tactic(auto)]

mod detector;
mod fault;
mod found;
mod heard;
mod line;
mod occurrence_law;
mod pattern;
mod published;
mod read;
pub mod reading_law;
mod searched;
mod step;
pub mod text_law;
mod watching;
mod words;
mod writing;

pub use detector::Detector;
pub use fault::{PatternFault, PatternKind};
pub use found::Found;
pub use occurrence_law::{all_laws, first_laws, next_laws};
pub use pattern::{Pattern, Watch};
pub use read::read_patterns;
