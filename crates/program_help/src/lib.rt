//! Layer: program.
//! Job: what the program says of itself: what each word does, its version, and the line on words that it doesn't know.
//! Users: program_sequential.
//!
//! Tested in `test_program`: that both spellings of both words write the same, over a source of which each call fails.
#![tactic(auto)]

mod page;

pub use page::{Page, usage};
