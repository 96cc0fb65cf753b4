//! Layer: thread.
//! Job: the outcome of a run over cells: from phase to phase, and what the joined run leaves.
//! Users: program_threaded.
//!
//! The laws say when cells are between phases and the next one (`StandBetween`). `lemma_opens` gives it at the start,
//! `lemma_stand_later` before a later phase. `lemma_phase_done` gives it after a phase that was entered by `enter_next`
//! and ended by `finish_phase`. What happened in between, on whatever threads, doesn't matter, provided the roots are
//! the same: the journal at entry is part of a root. `lemma_calm` says that nothing is pending between phases, which
//! `enter_next` needs. `IsRanBy` defines what `collect` answers.
#![tactic(auto)]

mod inboxes;
pub mod law;
mod ran;

pub use ran::{collect, end_all};
