//! Measures how long reading a document takes.
use crate::outcome::print_outcome;
use document_reader::read_net;
use std::alloc::Global;
use std::rt::Clock;
use std::time::Instant;
use test_support::Failure;

/// How often the document is read; the time is the median.
const ROUNDS: usize = 7;

/// The nanoseconds that one reading takes.
fn reading(rt: &impl Clock, alloc: Global, document: &[u8]) -> Result<u64, Failure> {
    let start = Instant::now(rt)?;
    let net = read_net(alloc, document);
    let nanos = start.elapsed(rt)?.as_nanos();
    drop(net);
    Ok(u64::try_from(nanos).unwrap_or(u64::MAX))
}

/// Prints the outcome of a document, and the nanoseconds that reading it takes.
pub fn print_measure(
    rt: &(impl Print + Clock),
    alloc: Global,
    document: &[u8],
) -> Result<(), Failure> {
    print_outcome(rt, alloc, "the document", document)?;
    let mut times = Vec::new(alloc);
    for _ in 0..ROUNDS {
        times.push(reading(rt, alloc, document)?)?;
    }
    times.sort_unstable();
    let nanos = times.get(ROUNDS / 2).copied().unwrap_or(0);
    println!(rt; "{} bytes in {nanos} nanoseconds", document.len())?;
    Ok(())
}
