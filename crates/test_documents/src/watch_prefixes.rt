//! Tries every beginning of an input with patterns.
use crate::watched::print_outcome;
use std::alloc::Global;
use test_support::Failure;

/// A document with a pattern.
pub const EXAMPLE: &str =
    "siena 1\nsemantics subscription\nservers 1\nclient a 1\nscript a\nsubscribe x int any\nbarrier\n\
        publish x int 1\npublish x int 2\npublish x int 1\npublish x int 3\npublish x int 2\npatterns\n\
        pattern a up\nstep x int = 1\nstep x int = 2\n";

/// Prints the outcome of each beginning.
pub fn print_prefixes(rt: &impl Print, alloc: Global) -> Result<(), Failure> {
    for n in 0..=EXAMPLE.len() {
        let name = format!(in alloc; "{n} bytes")?;
        print_outcome(rt, alloc, name.as_str(), &EXAMPLE.as_bytes()[..n])?;
    }
    Ok(())
}
