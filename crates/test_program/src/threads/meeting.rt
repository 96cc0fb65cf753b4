//! Holds two workers at a gate until both are there.
use super::tried::{held, print_written};
use super::waiting::{add, counted, wait_for};
use base_devices::{Gate, Place, Spot, WorkerRole};
use std::alloc::Global;
use std::sync::Wait;
use std::sync::atomic::AtomicU64;
use std::thread::Threads;
use test_support::Failure;

/// Two servers with a publication each.
const DOCUMENT: &str =
    "siena 1\nsemantics subscription\nservers 2\nedge 1 2\nclient p 1\nclient q 2\nscript p\n\
    publish x int 5\nscript q\npublish x int 6\n";

/// Nobody receives anything.
const TEXT: &[u8] = b"client p\nclient q\n";

/// Holds the workers for commands of servers 1 and 2, each before its first turn until the other is there.
#[derive(Drop)]
struct Meeting {
    first: AtomicU64,
    second: AtomicU64,
    met: AtomicU64,
}

impl Meeting {
    /// A worker comes, and where it comes for the first time waits for the other.
    fn come(&self, here: &AtomicU64, there: &AtomicU64) {
        if add(here) == 0 && wait_for(there, 1) {
            add(&self.met);
        }
    }
}

impl Gate for Meeting {
    fn pass(&self, place: Place) {
        if place.worker != WorkerRole::Commands || place.spot != Spot::Before {
            return;
        }
        match place.server {
            1 => self.come(&self.first, &self.second),
            2 => self.come(&self.second, &self.first),
            _ => {}
        }
    }
}

/// Prints how many of two workers met the other, and what comes of their run.
pub fn print_meeting<R: Print + Threads + Wait + Sync>(
    rt: &R,
    alloc: Global,
) -> Result<(), Failure> {
    let gate = Meeting {
        first: AtomicU64::new(0),
        second: AtomicU64::new(0),
        met: AtomicU64::new(0),
    };
    let came = held(rt, alloc, "run", DOCUMENT.as_bytes(), &gate)?;
    print_written(rt, "Two workers for commands that meet", &came, TEXT)?;
    println!(rt; "workers that met: {}", counted(&gate.met))?;
    Ok(())
}
