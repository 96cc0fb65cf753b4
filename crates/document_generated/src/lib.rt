//! Layer: document.
//! Job: the law that the reader accepts every generated document: no line of it is at fault, and it has a net.
//! Users: program_sequential.
#![tactic(auto)]

pub mod law;
