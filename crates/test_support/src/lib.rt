//! Layer: test.
//! Job: rows of questions with their answers, and a source and a sink in memory that fail at given calls.
//! Users: the test layer.
//!
//! A program of such rows reads them on its standard input, a row a line: the question, ` => `, and the answer that is
//! wanted. A line that begins with `#`, or that is empty, is none. The crate also says why a program of rows printed
//! nothing more.
//!
//! Worked rows come from outside and not from the program. The gate runs each program of rows as two compilers build
//! it, and compares what it prints. Such a program costs the same to prove however many rows it has. The source and the
//! sink in memory do exactly what they were made to do (`count`, `fails`, ..).
#![tactic(auto)]

mod failure;
mod fault;
mod memory;
mod parts;
mod piece;
mod rows;
mod texts;

pub use failure::Failure;
pub use fault::RowFault;
pub use memory::{MemorySink, MemorySource};
pub use parts::{
    first_word, number, put, put_number, put_truth, spelled, truth, truths, two_parts,
};
pub use rows::{Answers, try_rows};
pub use texts::{
    advert, adverts, filter, filters, first_constraint, first_value, notice, put_filter,
};
