//! Layer: base.
//! Job: sources and sinks of bytes that count their faults, and the gate at which a test may hold workers.
//! Users: document_format, and the layers thread, output, program and test.
//!
//! The adapters of standard input and output are here; the devices in memory, by which tests are made, are those of
//! `test_support`.
//!
//! Where `read_all` answers `Ok` or `TooLong`, the source's count of faults is as before (`kept`, `kept_at_the_limit`),
//! so no failed read is swallowed. It never reads more than one byte past the limit (`at_most`). A count of faults may
//! have a last value. Where a clause says that the count rose, it rose or is at this value. The counts of `StdSource`
//! and `StdSink` exist in proofs alone and have none: only `Asked` raises them, where the device answered an error or
//! took nothing of a piece. `Pending` gathers up to 65,536 bytes before a write.
#![tactic(auto)]

mod gate;
mod noted;
mod pending;
mod sink;
mod source;
mod standard;
mod whole;

pub use gate::{Gate, NoGate, Place, Spot, WorkerRole};
pub use noted::{Answers, Asked, Count, Noted};
pub use pending::Pending;
pub use sink::Sink;
pub use source::{Failed, Source};
pub use standard::{StdSink, StdSource};
pub use whole::{ReadAll, read_all, write_all};
