//! Layer: thread.
//! Job: a one-way queue between two threads that loses nothing and says when it has nothing.
//! Users: thread_cell, thread_workers, thread_outcome and test_threads.
//!
//! What is put waits in an outbox; `flush` moves it into a ring of 256 places (`moved`) and raises the mark, which
//! counts the items pushed (`mark`). It leaves items in the outbox only where a look at the ring found every place
//! taken: that is a full (`full`, `IsFull`). No other call counts a full (`NoFull`). The ring's library has no clause
//! that tells a look from none, so that `has_no_place` looks is its body's word.
//!
//! The other end takes from the ring. `take` answers the first item that this end knew to come (`taken`, `next`).
//! Either the rest loses its first item and neither mark nor ring is looked at, or the rest is empty and the end has
//! had one more item from the ring (`rest`). `look` shows that item and takes nothing. `None` is answered exactly where
//! one miss is counted (`nothing`, and `Misses` for `look`): then the rest is empty, and the mark shows just as many
//! items as this end has had. That `take` and `look` return where the mark shows a further item is neither proved nor
//! tested: the ring promises no sight of the other end's progress.
//!
//! With both ends in one thread again, `settle` moves all that was not taken to the rest of the taking end, whatever
//! its number. After running out of memory it leaves every item where it was (`kept`, `waits`). After it, one takes as
//! long as `has_rest` holds, and then has taken all that was put; `test_threads` has this as a proof. `put`, `flush`,
//! `take` and `look` take no memory, `room` only where there isn't room already (`wanting`), and items are moved, never
//! copied.
#![tactic(auto)]

mod both;
mod fulls;
mod mark;
mod putting;
mod taking;

pub use both::{lane, settle};
pub use putting::LaneIn;
pub use taking::LaneOut;
