//! Tries every beginning of a document.
use crate::nets::FEED;
use crate::outcome::print_outcome;
use std::alloc::Global;
use test_support::Failure;

/// Prints the outcome of each beginning of a realistic document.
pub fn print_prefixes(rt: &impl Print, alloc: Global) -> Result<(), Failure> {
    for n in 0..=FEED.len() {
        let name = format!(in alloc; "{n} bytes")?;
        print_outcome(rt, alloc, name.as_str(), &FEED.as_bytes()[..n])?;
    }
    Ok(())
}
