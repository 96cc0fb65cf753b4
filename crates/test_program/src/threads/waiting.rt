//! Counts that threads share, and waits for them.
use std::sync::atomic::{AtomicU64, Ordering};
use std::thread::yield_now;

/// How often a worker that is held looks before it goes on.
const TRIES: u32 = 200_000_000;

/// Counts one more, and answers how many there were before.
pub fn add(count: &AtomicU64) -> u64 {
    count.fetch_add(1, Ordering::SeqCst)
}

/// How many there are.
pub fn counted(count: &AtomicU64) -> u64 {
    count.load(Ordering::SeqCst)
}

/// Lets other threads run until so many are counted, or until it has looked too often; whether they came.
pub fn wait_for(count: &AtomicU64, least: u64) -> bool {
    for _ in 0..TRIES {
        if counted(count) >= least {
            return true;
        }
        yield_now();
    }
    false
}
