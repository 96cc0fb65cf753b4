//! Layer: thread.
//! Job: a lock whose value one pass at a time has in hand, without waiting.
//! Users: thread_cell, thread_workers and test_threads.
//!
//! A lock is made with its value and a number of passes, which may go to as many threads. A pass takes the value where
//! no other has it in hand, and puts it back. Nobody waits: a try that finds the value gone counts a miss. The
//! contracts hold for any value that has a root, which stays the same, and a growing list, of which a pass has seen a
//! beginning (`Standing`); contracts see both through the passes. `close` answers a value with the root, whose list
//! begins with what each pass had seen (`root`, `list`). When a value is dropped is neither proved nor tested.
#![tactic(auto)]

mod lock;
mod rule;
mod standing;
mod view;

pub use lock::{Pass, TurnLock};
pub use standing::Standing;
