//! Layer: thread.
//! Job: one server with everything that it needs between two threads, by the numbers of a run.
//! Users: thread_workers, thread_outcome, program_threaded and test_threads.
//!
//! A lane carries stamped messages as numbers, which have a meaning in one net alone; a cell that takes one checks
//! whether its numbers are those of its own tables.
//!
//! - The core is the state to which the journal since the phase began replays from the state at its start (`IsReplay`
//!   of `law_machine`). The clock is the last stamp. What was put on each lane are the messages with their stamps, and
//!   stamps rise from the clock at entry.
//! - Also kept: no command of a lower phase is left and none of a higher one executed (`due`). The publisher's
//!   installed changes make what the core installed, and only what was handed over is pending there (`shown`,
//!   `handed`).
//! - `start` has both ends of each lane among its cells (`AreStarted`).
//! - `Turned` names what a step came to. `Idle` is answered only where no command of the phase is left and nothing is
//!   pending, or where the misses of the lane rose. Stamps are exhausted only where the next would be 2^62 (`worn`).
//! - A match ahead changes no entry, message or delivery (`turn_ahead`). Its route is used only where it had seen all
//!   that is installed (`IsRight`); otherwise the turn is `Stale` and goes by the installed table.
//! - `enter_phase` changes the root and the clock alone. The caller owes it a clock below 2^62 and not below the
//!   cell's, that no command of a lower phase is left (`is_through`), and that the tree in force is the cell's
//!   (`keeps_tree`).
//! - `finish_phase` requires the cells of all servers in one phase and both ends of each lane among them
//!   (`AreTogether`, about roots alone). `Worn(s)` is answered only where some clock or put item has the stamp
//!   2^62 - 1. Since all put items are then at the taking ends, the journals have a merge (`hand`). The order of its
//!   receptions is not promised beyond what the journals show.
//! - `enter_next` requires that nothing is pending and no client has a command below a later one left. What each server
//!   then holds from its neighbours is the `flow` of `server_flow`.
//!
//! That a whole cell is `Send` is proved in `thread_workers`.
#![tactic(auto)]

mod asked;
mod cell;
mod choice;
mod coming;
mod finish;
mod held;
mod homes;
mod lanes;
mod link;
mod looking;
mod naming;
mod next;
mod phases;
mod reception;
mod rehanging;
mod relinking;
mod routing;
mod settling;
mod starting;
mod step;
mod table_update;
mod turn;
mod turned;
mod walking;

pub use cell::Cell;
pub use coming::next_phase;
pub use finish::finish_phase;
pub use held::{Root, ServerInHand};
pub use link::Link;
pub use next::enter_next;
pub use relinking::relink;
pub use starting::{Started, start};
pub use turned::Turned;
