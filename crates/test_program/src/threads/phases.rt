//! Tries runs over many phases.
use super::tried::{free, in_threads, is_written};
use base::{NoMemory, push_labelled};
use std::alloc::Global;
use std::sync::Wait;
use std::thread::Threads;
use test_support::Failure;

/// What comes before the servers of a document.
const HEAD: &[u8] = b"siena 1\nsemantics subscription\nservers ";

/// In so many threads at most.
const MOST_THREADS: usize = 8;

/// What the client of the first server takes, and then the script of the one of the last server, who begins a phase and
/// publishes in it again and again.
const SCRIPTS: &[u8] = b"\nscript a\nsubscribe x int any\nscript b\n";

/// Servers in a row, with a client at each end.
fn row(alloc: Global, servers: u64) -> Result<Vec<u8>, NoMemory> {
    let mut text = Vec::new(alloc);
    push_labelled(&mut text, HEAD, servers)?;
    for server in 1..servers {
        push_labelled(&mut text, b"\nedge ", server)?;
        push_labelled(&mut text, b" ", server.saturating_add(1))?;
    }
    text.extend_from_slice(b"\nclient a 1\n")?;
    push_labelled(&mut text, b"client b ", servers)?;
    Ok(text)
}

/// So many servers in a row, and so many phases behind the first one.
fn document(alloc: Global, servers: u64, phases: u32) -> Result<Vec<u8>, NoMemory> {
    let mut text = row(alloc, servers)?;
    text.extend_from_slice(SCRIPTS)?;
    for _ in 0..phases {
        text.extend_from_slice(b"barrier\npublish x int 1\n")?;
    }
    Ok(text)
}

/// Prints how many of the runs over many phases, in one thread up to eight, write what the walk does.
fn print_runs<R: Print + Threads + Wait + Sync>(
    rt: &R,
    alloc: Global,
    servers: u64,
    phases: u32,
) -> Result<(), Failure> {
    let document = document(alloc, servers, phases)?;
    let walked = free(rt, alloc, "walk", &document)?;
    let mut same = 0u32;
    for threads in 1..MOST_THREADS + 1 {
        if is_written(&in_threads(rt, alloc, &document, threads)?, &walked.text) {
            same = same.saturating_add(1);
        }
    }
    println!(rt;
        "Runs of {servers} servers over {phases} phases, in one thread up to {MOST_THREADS}, that write what the walk does: {same}"
    )?;
    Ok(())
}

/// Prints what comes of runs of two servers over many phases, and of 64 servers.
pub fn print_phases<R: Print + Threads + Wait + Sync>(
    rt: &R,
    alloc: Global,
) -> Result<(), Failure> {
    print_runs(rt, alloc, 2, 1_500)?;
    print_runs(rt, alloc, 64, 100)
}
