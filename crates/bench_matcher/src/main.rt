//! Layer: bench.
//! Job: compares the matcher of a fixed list with the plain scan over generated filters and notifications, and measures both.
//! Users: nobody; it is a program of its own.
//!
//! With the word `measure` the program prints nanoseconds a notification for each workload by scan, table and matcher,
//! and what making the matcher took.
#![tactic(auto)]

mod agree;
mod fault;
mod made;
mod measure;
mod plan;
mod random;
mod scan;
mod words;
mod workload;

use fault::Fault;
use made::Maker;
use plan::{Plan, Subject};
use random::Random;
use std::rt::Env;
use workload::{WORKLOADS, Workload};

/// Whether the program is asked to measure.
fn is_measure(rt: &(impl Env + AllocGlobal)) -> Result<bool, Fault> {
    match std::env::args(rt)?.nth(1) {
        None => Ok(false),
        Some(word) if word.as_str() == "measure" => Ok(true),
        Some(_) => Err(Fault::Usage),
    }
}

fn main(rt: HostRuntime) -> Result<(), Fault> {
    if is_measure(&rt)? {
        measure::measure(&rt, rt.alloc())
    } else {
        agree::agree(&rt, rt.alloc())
    }
}
