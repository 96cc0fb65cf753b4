//! Holds a worker at a gate so that a table update overtakes its match.
use super::tried::{held, print_written};
use super::waiting::{add, counted, wait_for};
use base_devices::{Gate, Place, Spot, WorkerRole};
use std::alloc::Global;
use std::sync::Wait;
use std::sync::atomic::AtomicU64;
use std::thread::Threads;
use test_support::Failure;

/// A filter in the first phase; in the second one a wider filter, and a publication.
const DOCUMENT: &str =
    "siena 1\nsemantics subscription\nservers 1\nclient s 1\nclient p 1\nscript s\n\
    subscribe x int = 1\nbarrier\nsubscribe x int any\nscript p\nbarrier\npublish x int 5\n";

/// The publication goes by the wider filter.
const TEXT: &[u8] = b"client s\ndeliver p 1 x int 5\nclient p\n";

/// In the second phase the worker for links waits for the first match ahead; then that for commands waits for the table update;
/// and then that for links waits for the turn of the publication.
#[derive(Drop)]
struct Overtaken {
    matched: AtomicU64,
    versions: AtomicU64,
    commands: AtomicU64,
    stale: AtomicU64,
    late: AtomicU64,
}

impl Overtaken {
    /// Holds a worker.
    fn hold(&self, count: &AtomicU64, least: u64) {
        if !wait_for(count, least) {
            add(&self.late);
        }
    }

    /// Holds the worker for links.
    fn hold_links(&self) {
        if counted(&self.versions) == 0 {
            self.hold(&self.matched, 1);
        } else {
            self.hold(&self.commands, 2);
        }
    }

    /// Holds the worker for commands, which has matched.
    fn hold_commands(&self) {
        add(&self.matched);
        self.hold(&self.versions, 1);
    }
}

impl Gate for Overtaken {
    fn pass(&self, place: Place) {
        if place.spot == Spot::Stale {
            add(&self.stale);
        }
        if place.phase != 1 {
            return;
        }
        match (place.worker, place.spot) {
            (WorkerRole::Links, Spot::Before) => self.hold_links(),
            (WorkerRole::Commands, Spot::Matched) => self.hold_commands(),
            (WorkerRole::Links, Spot::Made) => {
                add(&self.versions);
            }
            (WorkerRole::Commands, Spot::Made) => {
                add(&self.commands);
            }
            _ => {}
        }
    }
}

/// Prints how often a match ahead was stale, and what comes of the run.
pub fn print_overtaken<R: Print + Threads + Wait + Sync>(
    rt: &R,
    alloc: Global,
) -> Result<(), Failure> {
    let gate = Overtaken {
        matched: AtomicU64::new(0),
        versions: AtomicU64::new(0),
        commands: AtomicU64::new(0),
        stale: AtomicU64::new(0),
        late: AtomicU64::new(0),
    };
    let came = held(rt, alloc, "run", DOCUMENT.as_bytes(), &gate)?;
    print_written(rt, "A version overtakes a match ahead", &came, TEXT)?;
    println!(rt;
        "stale matches: {}, held too long: {}",
        counted(&gate.stale),
        counted(&gate.late)
    )?;
    Ok(())
}
