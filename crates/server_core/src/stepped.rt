//! The types of the answer of a step: its stamp and messages, or its fault.
ghost use Rattle.std.specs.Prelude.{◌≡◌};
ghost use Rattle.server_core.specs.declared.stepped.StepFault.TheVariants as faults;

use base::NoMemory;
use server_message::Sending;

/// The greatest stamp.
pub const LAST_STAMP: u64 = (1 << 62) - 1;

/// A step that was made: its stamp, and its messages by rising neighbour.
#[derive(Drop)]
pub struct Step<'a> {
    /// The stamp, below 2^62.
    pub stamp: u64,
    /// The messages, by rising neighbour.
    pub sent: Vec<Sending<'a>>,
}

/// Why a step was not made. The core is as before.
#[derive(Clone, Copy, Debug, PartialEq, Eq)]
pub enum StepFault {
    /// Memory ran out.
    NoMemory,
    /// The next stamp would be 2^62: the greater of the clock and the received stamp is this one, 2^62 - 1.
    StampsExhausted(u64),
}

impl From<NoMemory> for StepFault {
    ghost from_gives = { λ _ e. e ≡ faults.NoMemory };

    fn from(_: NoMemory) -> Self {
        StepFault::NoMemory
    }
}
