//! Layer: audit.
//! Job: what an input claims: a document and, behind a line `output`, a traced output, read or refused with the first line at fault.
//! Users: audit_verdict and the program layer.
//!
//! It also finds the first place at which two texts differ. `written_is_input` says that no line of a document with a
//! net is `output`.
#![tactic(auto)]

mod claim;
mod differing;
mod fault;
pub mod law;
mod line;
mod number;
mod output;
mod trace;

pub use claim::{Claim, read_claim};
pub use differing::difference;
pub use fault::ClaimFault;
