//! Tries runs with two workers for each server.

mod documents;
mod generated;
mod meeting;
mod moving;
mod orders;
mod overtaken;
mod phases;
mod processes;
mod relayed;
mod runs;
mod starts;
mod tried;
mod waiting;

use std::alloc::Global;
use std::sync::Wait;
use std::thread::Threads;
use test_support::Failure;

/// Runs documents, free and held at gates, and prints of each whether what it wrote is as wanted.
pub fn print_all<R: Print + Threads + Wait + Sync>(rt: &R, alloc: Global) -> Result<(), Failure> {
    tried::print_rows(rt, alloc, &runs::RUNS)?;
    processes::print_processes(rt, alloc)?;
    meeting::print_meeting(rt, alloc)?;
    overtaken::print_overtaken(rt, alloc)?;
    relayed::print_relayed(rt, alloc)?;
    orders::print_orders(rt, alloc)?;
    moving::print_moving(rt, alloc)?;
    starts::print_starts(rt, alloc)?;
    phases::print_phases(rt, alloc)?;
    generated::print_generated(rt, alloc)
}
