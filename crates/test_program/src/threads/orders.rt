//! Lets four workers take their first turns in every order.
use super::tried::{free, held, is_written};
use super::waiting::{add, counted, wait_for};
use base_devices::{Gate, Place, WorkerRole};
use std::alloc::Global;
use std::sync::Wait;
use std::sync::atomic::AtomicU64;
use std::thread::Threads;
use test_support::Failure;

/// Two servers, with a client each that has a filter in the first phase and publishes in the second one.
const DOCUMENT: &str =
    "siena 1\nsemantics subscription\nservers 2\nedge 1 2\nclient a 1\nclient b 2\nscript a\n\
    subscribe x int > 1\nbarrier\npublish x int 1\npublish x int 2\nscript b\nsubscribe x int < 4\nbarrier\n\
    publish x int 3\npublish x int 4\n";

/// How often each of four workers came to a gate in one phase, and how many of them have had their first turn.
#[derive(Drop)]
struct Arrivals {
    came: [AtomicU64; 4],
    done: AtomicU64,
}

/// Lets four workers have their first turns of each of two phases in an order: each waits until as many others have had theirs
/// as its place says.
#[derive(Drop)]
struct InOrder {
    places: [u64; 4],
    phases: [Arrivals; 2],
    late: AtomicU64,
}

/// The number of a worker of two servers, from 0.
fn number(place: Place) -> Option<usize> {
    match (place.server, place.worker) {
        (1, WorkerRole::Commands) => Some(0),
        (1, WorkerRole::Links) => Some(1),
        (2, WorkerRole::Commands) => Some(2),
        (2, WorkerRole::Links) => Some(3),
        _ => None,
    }
}

/// Nobody came.
fn nobody_came() -> Arrivals {
    Arrivals {
        came: [
            AtomicU64::new(0),
            AtomicU64::new(0),
            AtomicU64::new(0),
            AtomicU64::new(0),
        ],
        done: AtomicU64::new(0),
    }
}

impl InOrder {
    /// A worker of this place comes to the gate: first before its first turn, and then for the next time after it.
    fn come(&self, arrivals: &Arrivals, came: &AtomicU64, place: u64) {
        match add(came) {
            0 => {
                if !wait_for(&arrivals.done, place) {
                    add(&self.late);
                }
            }
            1 => {
                add(&arrivals.done);
            }
            _ => {}
        }
    }
}

impl Gate for InOrder {
    fn pass(&self, place: Place) {
        let Some(worker) = number(place) else {
            return;
        };
        let Some(arrivals) = self.phases.get(place.phase as usize) else {
            return;
        };
        if let (Some(came), Some(turn)) = (arrivals.came.get(worker), self.places.get(worker)) {
            self.come(arrivals, came, *turn);
        }
    }
}

/// The places of four workers in the order of a number below 24.
fn places(order: u64) -> [u64; 4] {
    let mut places = [0, 1, 2, 3];
    places.swap(0, (order % 4) as usize);
    places.swap(1, 1 + (order / 4 % 3) as usize);
    places.swap(2, 2 + (order / 12 % 2) as usize);
    places
}

/// How many of all orders bring this text, and how many workers were held too long.
fn try_orders<R: Threads + Wait + Sync>(
    rt: &R,
    alloc: Global,
    text: &[u8],
) -> Result<(u32, u64), Failure> {
    let mut same = 0u32;
    let mut late = 0u64;
    for order in 0..24u64 {
        let gate = InOrder {
            places: places(order),
            phases: [nobody_came(), nobody_came()],
            late: AtomicU64::new(0),
        };
        let came = held(rt, alloc, "run --sorted", DOCUMENT.as_bytes(), &gate)?;
        if is_written(&came, text) {
            same = same.saturating_add(1);
        }
        late = late.saturating_add(counted(&gate.late));
    }
    Ok((same, late))
}

/// Prints how many of the 24 orders of first turns bring what the walk brings.
pub fn print_orders<R: Print + Threads + Wait + Sync>(
    rt: &R,
    alloc: Global,
) -> Result<(), Failure> {
    let walked = free(rt, alloc, "walk --sorted", DOCUMENT.as_bytes())?.text;
    let (same, late) = try_orders(rt, alloc, &walked)?;
    println!(rt;
        "Orders of first turns that bring what the walk brings: {same} of 24, held too long: {late}"
    )?;
    Ok(())
}
