//! Tries many starts and ends of workers.
use super::tried::{free, is_written};
use std::alloc::Global;
use std::sync::Wait;
use std::thread::Threads;
use test_support::Failure;

/// How often a document is run.
const STARTS: u32 = 100;

/// Two servers, two clients, one publication.
const DOCUMENT: &str =
    "siena 1\nsemantics subscription\nservers 2\nedge 1 2\nclient a 1\nclient b 2\nscript a\npublish x int 1\n";

/// Nobody receives it.
const TEXT: &[u8] = b"client a\nclient b\n";

/// Prints how many of many runs write the same.
pub fn print_starts<R: Print + Threads + Wait + Sync>(
    rt: &R,
    alloc: Global,
) -> Result<(), Failure> {
    let mut same = 0u32;
    for _ in 0..STARTS {
        let came = free(rt, alloc, "run", DOCUMENT.as_bytes())?;
        if is_written(&came, TEXT) {
            same = same.saturating_add(1);
        }
    }
    println!(rt; "Runs of a small document that write the same: {same} of {STARTS}")?;
    Ok(())
}
