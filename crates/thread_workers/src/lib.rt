//! Layer: thread.
//! Job: the two workers of a server, which take turns at its cell, and the workers of all servers in one phase.
//! Users: program_threaded.
//!
//! The worker for commands executes the commands of the server's clients, one per client in turn. It ends where it has
//! the cell in hand and none up to the phase is left. The worker for links takes from each neighbour in rising order
//! and makes table updates. It ends where it has the cell in hand and nothing of either is left.
//!
//! A worker makes many turns each time it takes the lock, up to a bound, and many receptions in a row, up to another
//! one. Where the cell is in use, it doesn't wait. It matches a publish or a notification ahead without the lock, and
//! makes that turn the next time it has the cell; if the cell is in use then, the match is forgotten. It passes a gate,
//! with nothing in hand, before each try for the lock and after a match ahead. It also does so after a reception for
//! each made turn, and once more where the match was out of date. Where a worker passes the gate is neither proved nor
//! tested.
//!
//! `Keeps` says what a worker returns: its pass, with nothing in hand and at least what it had seen, and a viewer of
//! the same publisher. A worker for commands without a fault has seen every command of its server's clients up to the
//! phase (`HasCommands`). Its `Worn(s)` is 2^62 - 1, the last stamp or the clock at entry (`IsWornBy`). The worker for
//! links has one fault, out of memory.
//!
//! `run_phase` puts each cell into a lock with three passes. Its caller's thread is one of the threads that it uses.
//! The two workers of a lock are in different threads, where there are two or more. A thread that finds nothing to do
//! in some rounds parks until another one did something; the last one awake ends the phase. Before a thread ends, its
//! workers for commands look once more whether a command is left. A body that starts no worker is refused, since
//! `taken` needs the commands of the phase. The proof that a cell may go to another thread is in `proofs/Sends.antt`.
//!
//! Only tested, in `test_program`: that a match ahead is used and found out of date, that messages are received before
//! the joins, and that no wake-up is lost in 12,000 phases of two servers and 300 of 64.
#![tactic(auto)]

mod ended;
mod hand;
mod hire;
mod jobs;
mod locking;
mod made;
mod pace;
mod phase;
mod phase_context;
mod server_workers;
mod tried;
mod worker;
mod worker_context;
mod worker_handles;
mod worker_state;
mod workers_of_thread;

pub use ended::Ended;
pub use phase::run_phase;
pub use server_workers::Viewers;
