//! Layer: document.
//! Job: the canonical text of a net: one way to write a document, and the proof that it is read back as the same net.
//! Users: document_generated, audit_verdict and program_sequential.
//!
//! A law without code says that the wire text of a command behind its first word is the command together with that
//! word.
#![tactic(auto)]

mod command;
mod document;
pub mod law;
mod line;
mod network;
mod script;
pub mod spelling;
mod value;

pub use document::put_document;
