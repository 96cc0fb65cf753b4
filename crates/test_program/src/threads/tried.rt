//! One call of the program with threads, over devices in memory.
use crate::row::Row;
use crate::tried::{Tried, print_verdict, told, words};
use base_devices::{Gate, NoGate};
use program_sequential::{Shown, net, printed_run};
use program_threaded::{run_net, siena};
use std::alloc::Global;
use std::sync::Wait;
use std::thread::Threads;
use test_support::{Failure, MemorySink, MemorySource};

/// Room for what is written.
const ROOM: usize = 4_000_000;

/// Deliveries in the order received, with no trace.
const PLAIN: Shown = Shown {
    sorted: false,
    trace: false,
};

/// Runs the words over a document, with its workers held at a gate.
pub fn held<R: Threads + Wait + Sync, G: Gate + Sync>(
    rt: &R,
    alloc: Global,
    line: &str,
    document: &[u8],
    gate: &G,
) -> Result<Tried, Failure> {
    let words = words(alloc, line)?;
    let mut source = MemorySource::make(document.to_vec(alloc)?, 4096, Vec::new(alloc));
    let mut sink = MemorySink::make(alloc, 4096, Vec::new(alloc), ROOM)?;
    let ended = siena(alloc, rt, &words, &mut source, &mut sink, gate);
    let fault = told(alloc, ended.status)?;
    let text = sink.bytes().to_vec(alloc)?;
    Ok(Tried { fault, text })
}

/// Runs the words over a document, with nobody held.
pub fn free<R: Threads + Wait + Sync>(
    rt: &R,
    alloc: Global,
    line: &str,
    document: &[u8],
) -> Result<Tried, Failure> {
    held(rt, alloc, line, document, &NoGate)
}

/// Runs a document in so many threads, with nobody held.
pub fn in_threads<R: Threads + Wait + Sync>(
    rt: &R,
    alloc: Global,
    document: &[u8],
    threads: usize,
) -> Result<Tried, Failure> {
    let Ok(net) = net(alloc, document) else {
        return Err(Failure::Refused);
    };
    let ran = run_net(alloc, rt, &net, &NoGate, threads, false)?;
    let printed = printed_run(alloc, net, ran, PLAIN)?;
    let mut sink = MemorySink::make(alloc, 4096, Vec::new(alloc), ROOM)?;
    let mut fault = Vec::new(alloc);
    if printed.write(&mut sink).is_err() {
        fault.extend_from_slice(b"not written")?;
    }
    let text = sink.bytes().to_vec(alloc)?;
    Ok(Tried { fault, text })
}

/// Whether this was written, and nothing reported.
pub fn is_written(came: &Tried, text: &[u8]) -> bool {
    came.fault.is_empty() && came.text.as_slice() == text
}

/// Prints whether this was written and nothing reported, and where it wasn't, what came.
pub fn print_written(
    rt: &impl Print,
    name: &str,
    came: &Tried,
    text: &[u8],
) -> Result<(), Failure> {
    print_verdict(rt, name, came, b"", text)
}

/// Runs rows, and prints of each whether it came as wanted.
pub fn print_rows<R: Print + Threads + Wait + Sync>(
    rt: &R,
    alloc: Global,
    rows: &[Row],
) -> Result<(), Failure> {
    for row in rows {
        let came = free(rt, alloc, row.words, row.document.as_bytes())?;
        print_written(rt, row.name, &came, row.text.as_bytes())?;
    }
    Ok(())
}
