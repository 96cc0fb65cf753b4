//! Layer: program.
//! Job: the top call for all words: as that on one thread, and with two workers for each server where `run` is asked for.
//! Users: siena and test_program.
//!
//! `program` is all that the program does: it reads the words, makes the call, and tells standard error how that ended. Only
//! words of `run` have threads: for all others it calls what has no handle to start one.
//!
//! The program asks for four threads, and for the entries only where the trace is to be shown.
#![tactic(auto)]

mod arguments;
mod phases;
mod process;
mod run;
mod standard;
mod team;
mod threaded;
mod top;

pub use process::{Ended, program};
pub use run::run_net;
pub use standard::with_devices;
pub use top::siena;
