//! Audits runs whose outcome may differ from run to run.
use super::documents::{DOCUMENTS, Document};
use super::tried::free;
use std::alloc::Global;
use std::sync::Wait;
use std::thread::Threads;
use test_support::Failure;

/// How often each document is run.
const RUNS: u32 = 40;

/// How many runs of a document were done, and of how many of them the audit went well.
fn try_document<R: Threads + Wait + Sync>(
    rt: &R,
    alloc: Global,
    document: &Document,
) -> Result<(u32, u32), Failure> {
    let mut runs = 0u32;
    let mut audits = 0u32;
    for _ in 0..RUNS {
        let came = free(rt, alloc, "run --trace", document.text.as_bytes())?;
        if came.fault.is_empty() {
            runs = runs.saturating_add(1);
        }
        let mut claim = document.text.as_bytes().to_vec(alloc)?;
        claim.extend_from_slice(b"output\n")?;
        claim.extend_from_slice(&came.text)?;
        if free(rt, alloc, "audit", &claim)?.fault.is_empty() {
            audits = audits.saturating_add(1);
        }
    }
    Ok((runs, audits))
}

/// Prints of each document how often it was run, and how many audits went well.
pub fn print_moving<R: Print + Threads + Wait + Sync>(
    rt: &R,
    alloc: Global,
) -> Result<(), Failure> {
    for document in &DOCUMENTS {
        let (runs, audits) = try_document(rt, alloc, document)?;
        println!(rt; "{}: {runs} runs, {audits} audits", document.name)?;
    }
    Ok(())
}
