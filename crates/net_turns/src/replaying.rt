//! The type of the fault that making the turns of a schedule may answer.

/// Why a schedule was not made to its end.
#[derive(Clone, Copy, Debug, PartialEq, Eq)]
pub enum ReplayFault {
    /// The turn of this line is not permitted when it comes.
    BadTurn(u32),
    /// Memory ran out.
    NoMemory,
}
