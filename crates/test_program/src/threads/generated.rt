//! Tries a generated document with threads.
use super::tried::{free, print_written};
use crate::generated::lines_with;
use document_generate::generate;
use std::alloc::Global;
use std::sync::Wait;
use std::thread::Threads;
use test_support::Failure;

/// Prints whether the walk and the run of a document of 16 servers, 64 clients and 2,000 publications give each client what
/// flooding owes it.
pub fn print_generated<R: Print + Threads + Wait + Sync>(
    rt: &R,
    alloc: Global,
) -> Result<(), Failure> {
    let document = generate(alloc, 1)?;
    let flooded = free(rt, alloc, "flood", &document)?.text;
    println!(rt;
        "deliveries of a generated document: {}",
        lines_with(&flooded, b"deliver ")
    )?;
    let walked = free(rt, alloc, "walk --sorted", &document)?;
    print_written(rt, "its sorted walk is its flood", &walked, &flooded)?;
    let came = free(rt, alloc, "run --sorted", &document)?;
    print_written(rt, "and so is its run", &came, &flooded)?;
    Ok(())
}
