//! Counts how far the threads of a phase are, so that idle ones park and are woken.
use std::sync::Wait;
use std::sync::atomic::{AtomicU64, Ordering};

// So many threads at most can be counted.
const COUNTED: u64 = 1 << 8;

// One event more.
const EVENT: u64 = COUNTED * COUNTED;

/// How many threads there are in a phase, how many of them found nothing to do, and how often one did something: by it a
/// thread that finds nothing parks until another one did something, and the last one awake ends the phase. No promise speaks
/// of it.
///
/// One word has all three: the idle threads in its lowest eight bits, all threads in the next ones, and above these the events,
/// each of which leaves no thread idle. So a thread that found nothing since an event counts as idle only where no other event
/// came.
#[derive(Drop)]
pub struct Pace {
    word: AtomicU64,
    refused: AtomicU64,
}

impl Pace {
    /// Of a phase with so many threads.
    pub(crate) fn new(threads: usize) -> Pace {
        let threads = (threads as u64).min(COUNTED - 1);
        Pace {
            word: AtomicU64::new(threads * COUNTED),
            refused: AtomicU64::new(0),
        }
    }

    /// The thread with a number can't be had.
    pub(crate) fn refuse(&self, number: usize) {
        self.refused.fetch_or(1 << (number % 64), Ordering::SeqCst);
    }

    /// Whether the thread with a number couldn't be had.
    pub(crate) fn is_refused(&self, number: usize) -> bool {
        self.refused.load(Ordering::SeqCst) & (1 << (number % 64)) != 0
    }

    /// What a thread has seen of the others' events.
    pub(crate) fn seen(&self) -> u64 {
        self.word.load(Ordering::SeqCst) / EVENT
    }

    /// Puts a word in the place of another one, if it still stands there.
    fn change(&self, old: u64, new: u64) -> bool {
        let order = Ordering::SeqCst;
        self.word.compare_exchange(old, new, order, order).is_ok()
    }

    /// A thread did something: the idle ones are to look again.
    pub(crate) fn note<R: Wait>(&self, rt: &R) {
        for _ in rt.forever() {
            let old = self.word.load(Ordering::SeqCst);
            let new = (old - old % COUNTED).wrapping_add(EVENT);
            if self.change(old, new) {
                if old % COUNTED > 0 {
                    self.word.wake_all();
                }
                return;
            }
        }
    }

    /// A thread ends before the phase does: the others go on without it.
    pub(crate) fn leave<R: Wait>(&self, rt: &R) {
        for _ in rt.forever() {
            let old = self.word.load(Ordering::SeqCst);
            let new = old.saturating_sub(COUNTED);
            if self.change(old, new) {
                self.word.wake_all();
                return;
            }
        }
    }

    /// A thread that has seen these events is idle, unless there was another one since.
    fn join_idle<R: Wait>(&self, rt: &R, seen: u64) {
        for _ in rt.forever() {
            let old = self.word.load(Ordering::SeqCst);
            if old / EVENT != seen || self.change(old, old.wrapping_add(1)) {
                return;
            }
        }
    }

    /// A thread found nothing to do since these events: waits for the next one. Whether one came; where none can come any more,
    /// since all threads found nothing, the phase is over.
    pub(crate) fn rest<R: Wait>(&self, rt: &R, seen: u64) -> bool {
        self.join_idle(rt, seen);
        for _ in rt.forever() {
            let word = self.word.load(Ordering::SeqCst);
            if word / EVENT != seen {
                return true;
            }
            if word % COUNTED >= word / COUNTED % COUNTED {
                self.word.wake_all();
                return false;
            }
            self.word.park(rt, (word % (1 << 32)) as u32);
        }
        true
    }
}
