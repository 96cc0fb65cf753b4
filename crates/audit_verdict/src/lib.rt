//! Layer: audit.
//! Job: the audit of one claimed run: whether the claimed output is the text of a legal run at its end, or where it is refuted.
//! Users: program_sequential.
//!
//! The audit makes the claimed turns itself, once, and compares the text of that run with what is claimed, piece by
//! piece, as the turns are made. Where the deliveries aren't those of the run, it makes the turns again. `only` of
//! `IsAudited` says that no other run has this output.
//!
//! Only tested, in `test_program`: one output cut and changed at each place (never yes), what `walk` and `replay`
//! print, and the runs with threads of documents whose outcome moves. That a refutation is the same by each net of a
//! document is neither proved nor tested.
#![tactic(auto)]

mod auditing;
mod compared;
mod comparing;
mod counts;
mod fault;
mod kind;
mod making;
mod place;
mod traced;

pub use auditing::{Audited, audit};
pub use fault::{AuditFault, AuditKind};
pub use kind::{AuditedKind, NetworkKind, Peers};
pub use making::make_run;
