//! Layer: law.
//! Job: links, runs and journals of any network of servers, over any local step. Pure.
//! Users: the law layer, and every layer above but document.
//!
//! Of one link: what is held at one end is what the other end sent at an earlier moment. Of runs, for any machine: the
//! state of a network, its step, the rule of phases, legal runs, stamps and bounds, journals and their merge, moments,
//! and the trying of turns.
#![tactic(auto)]

mod laws;
mod link;

pub use laws::{
    Counting, LocalStep, begun_phase, bounded, commands_left, fixed_by_turns, goes_on, grows,
    happens, kept_all, lighter, merges, messages, moments_stay, not_worn, once, one_merge, opening,
    permitted, rounds_end, run_begins, run_fixed, stamps_low, turns_run, whole_run,
};
pub use link::{on_its_way, sent_then};
