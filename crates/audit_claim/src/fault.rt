//! The type of the faults for which an input claims nothing.

use document_reader::Fault;

/// Why an input claims nothing. Lines are numbered from 1 through the whole input. The end counts as the line behind the last; that of the document part is
/// the line `output`.
#[derive(Clone, Copy, Debug, PartialEq, Eq)]
pub enum ClaimFault {
    /// The document part is refused.
    Document {
        /// The first line at fault.
        line: u32,
        /// Its first fault.
        kind: Fault,
    },
    /// This line of the trace is not of its form, or it is the end, and there is no output or no trace.
    Form(u32),
    /// Memory ran out.
    NoMemory,
}
