//! A notification that a worker for links takes while a phase goes on.
use super::tried::{held, print_written};
use super::waiting::{add, counted, wait_for};
use base_devices::{Gate, Place, Spot, WorkerRole};
use std::alloc::Global;
use std::sync::Wait;
use std::sync::atomic::AtomicU64;
use std::thread::Threads;
use test_support::Failure;

/// A filter at server 2, and a publication at server 1 in the phase behind it.
const DOCUMENT: &str =
    "siena 1\nsemantics subscription\nservers 2\nedge 1 2\nclient s 2\nclient p 1\nscript s\n\
    subscribe x int any\nscript p\nbarrier\npublish x int 5\n";

/// It is delivered.
const TEXT: &[u8] = b"client s\ndeliver p 1 x int 5\nclient p\n";

/// In the second phase the workers for links wait for the publication, and the worker for commands of server 2 waits until that
/// for links there has received it.
#[derive(Drop)]
struct Relayed {
    published: AtomicU64,
    taken: AtomicU64,
    late: AtomicU64,
}

impl Relayed {
    /// Holds a worker.
    fn hold(&self, count: &AtomicU64) {
        if !wait_for(count, 1) {
            add(&self.late);
        }
    }
}

impl Gate for Relayed {
    fn pass(&self, place: Place) {
        if place.phase != 1 {
            return;
        }
        match (place.worker, place.spot, place.server) {
            (WorkerRole::Links, Spot::Before, _) => self.hold(&self.published),
            (WorkerRole::Commands, Spot::Before, 2) => self.hold(&self.taken),
            (WorkerRole::Commands, Spot::Made, 1) => {
                add(&self.published);
            }
            (WorkerRole::Links, Spot::Made, 2) => {
                add(&self.taken);
            }
            _ => {}
        }
    }
}

/// Prints how many turns the worker for links of server 2 made in the second phase, and what comes of the run.
pub fn print_relayed<R: Print + Threads + Wait + Sync>(
    rt: &R,
    alloc: Global,
) -> Result<(), Failure> {
    let gate = Relayed {
        published: AtomicU64::new(0),
        taken: AtomicU64::new(0),
        late: AtomicU64::new(0),
    };
    let came = held(rt, alloc, "run", DOCUMENT.as_bytes(), &gate)?;
    print_written(rt, "A worker for links takes a notification", &came, TEXT)?;
    println!(rt;
        "its turns: {}, held too long: {}",
        counted(&gate.taken),
        counted(&gate.late)
    )?;
    Ok(())
}
